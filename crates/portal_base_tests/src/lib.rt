//! Tests of portal_base that cases can't show: devices that fail, and values that no text gives. They stand above it,
//! so that it is proved once. Everything else is tested by `format_cases`.
#![tactic(auto)]

#[cfg(test)]
mod devices;
#[cfg(test)]
mod ordered;
#[cfg(test)]
mod outside;
#[cfg(test)]
mod values;
