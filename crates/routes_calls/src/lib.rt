// The calls over a sheet's text that lay corners: `lay_mini_bus` on a bus that is handed in, and `route`, the three calls in order.
// `route_within` and `finish_plan` serve the crates above.
#![tactic(auto)]

pub mod mini;
pub mod route;
