//! Four passes of one seat each, which threads can act by at once. It is generic over the machine: the borrow checker doesn't
//! cover the drop of an array of passes of a portal.
ghost use Rattle.std.specs.Prelude.{◌≡◌, ◌+◌, ◌∷◌, [], Some, All, IfOk, IfSome, IsSomeAnd, length};
ghost use Rattle.std.specs.Option.{option_map_or};
ghost use Rattle.portal_hall.specs.Passes.{IsPassOf, room_of, seats_of};

use portal_hall::hall::Hall;
use portal_hall::machine::Machine;
use portal_hall::pass::Pass;
use std::alloc::{AllocError, Global};

/// A place for the pass of a thread.
pub type Slot<M> = Option<Pass<M>>;

/// The passes of four threads.
#[derive(Drop)]
pub struct Crew<M: Machine> {
    pub slots: Vec<Slot<M>>,
}

/// Joins a pass to what was joined before it, if anything was.
fn joined_to<M: Machine>(hall: &Hall<M>, joined: Option<Pass<M>>, pass: Pass<M>) -> Pass<M>
    requires pass { IsPassOf hall.now pass }
    requires joined { IfSome joined (λ joined. IsPassOf hall.now joined) }
    ensures pass { IsPassOf hall.now result }
    ensures room { room_of result ≡ option_map_or room_of joined 0 + room_of pass }
{
    match joined {
        Some(mut joined) => {
            hall.join(&mut joined, pass);
            joined
        }
        None => pass,
    }
}

/// Takes the pass of a slot, and joins it to what was joined before it.
fn take_and_join<M: Machine>(hall: &Hall<M>, joined: Option<Pass<M>>, slot: &mut Slot<M>) -> Pass<M>
    requires slot { IsSomeAnd slot.old (λ pass. IsPassOf hall.now pass × (room_of pass ≡ 1)) }
    requires joined { IfSome joined (λ pass. IsPassOf hall.now pass) }
    ensures pass { IsPassOf hall.now result }
    ensures room { room_of result ≡ option_map_or room_of joined 0 + 1 }
{
    match slot.take() {
        Some(pass) => joined_to(hall, joined, pass),
        None => unreachable!(),
    }
}

impl<M: Machine> Crew<M> {
    /// The crew of these passes.
    fn of(
        alloc: Global,
        one: Pass<M>,
        two: Pass<M>,
        three: Pass<M>,
        four: Pass<M>,
    ) -> Result<Crew<M>, AllocError>
        ensures { IfOk result (λ crew. crew.slots.items ≡ Some one ∷ Some two ∷ Some three ∷ Some four ∷ []) }
    {
        let slots = vec![in alloc; Some(one), Some(two), Some(three), Some(four)]?;
        Ok(Crew { slots })
    }

    /// The crew of four passes of a seat each, into which the pass of all four is split.
    fn split(alloc: Global, hall: &Hall<M>, pass: Pass<M>) -> Option<Crew<M>>
        requires { IsPassOf hall.now pass × (room_of pass ≡ 4) }
        ensures held { IfSome result (λ crew.
            All (λ slot. IsSomeAnd slot (λ pass. IsPassOf hall.now pass × (room_of pass ≡ 1))) crew.slots.items) }
        ensures count { IfSome result (λ crew. length crew.slots.items ≡ 4) }
    {
        let mut one = pass;
        let two = hall.split(&mut one, 1);
        let three = hall.split(&mut one, 1);
        let four = hall.split(&mut one, 1);
        Crew::of(alloc, one, two, three, four).ok()
    }

    /// Joins the passes.
    fn join(self, hall: &Hall<M>) -> Option<Pass<M>>
        requires { All (λ slot. IsSomeAnd slot (λ pass. IsPassOf hall.now pass × (room_of pass ≡ 1))) self.slots.items }
        ensures { length self.slots.items ≡ 4 → IsSomeAnd result (λ pass. IsPassOf hall.now pass × (room_of pass ≡ 4)) }
    {
        let Crew { mut slots } = self;
        if slots.len() != 4 {
            return None;
        }
        let joined = take_and_join(hall, None, &mut slots[0]);
        let joined = take_and_join(hall, Some(joined), &mut slots[1]);
        let joined = take_and_join(hall, Some(joined), &mut slots[2]);
        Some(take_and_join(hall, Some(joined), &mut slots[3]))
    }

    /// A hall over the machine, and a crew that has all its seats.
    pub fn over(alloc: Global, machine: M) -> Option<(Hall<M>, Crew<M>)>
    where
        M: Drop,
        ensures held { IfSome result (λ r.
            All (λ slot. IsSomeAnd slot (λ pass. IsPassOf r.0 pass × (room_of pass ≡ 1))) r.1.slots.items) }
        ensures count { IfSome result (λ r. length r.1.slots.items ≡ 4) }
        ensures seats { IfSome result (λ r. seats_of r.0 ≡ 4) }
    {
        let (hall, pass) = Hall::open(alloc, machine, 4).ok()?;
        let crew = Crew::split(alloc, &hall, pass)?;
        Some((hall, crew))
    }

    /// The hall's machine, and the length of its history. The crew has all seats of the hall.
    pub fn leave(self, hall: Hall<M>) -> Option<(M, usize)>
    where
        M: Drop,
        requires held { All (λ slot. IsSomeAnd slot (λ pass. IsPassOf hall pass × (room_of pass ≡ 1))) self.slots.items }
        requires count { length self.slots.items ≡ 4 }
        requires seats { seats_of hall ≡ 4 }
    {
        let pass = self.join(&hall)?;
        let (machine, history) = hall.close(pass);
        Some((machine, history.len()))
    }
}
