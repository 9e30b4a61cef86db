// The desktop as text, and its notification icons.
#![tactic(auto)]

pub mod desktop;
pub mod notifications;
