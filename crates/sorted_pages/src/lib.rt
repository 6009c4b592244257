//! What queries of sorted items share: the direction of a sort, the first items in an order, and the bounds of a page.
#![tactic(auto)]

pub mod direction;
pub mod laws;
pub mod order;
pub mod page;
