//! The plan of a site's devices: which drivers are reached at which hosts, and where their points are written there, as
//! a file spells it. `specs/Plans.antt` has the tests that a file has to pass, in their order.
#![tactic(auto)]

mod hosts;
mod keys;
mod line;
mod objects;
mod places;
mod plan;
mod refusal;
mod wheres;

pub use line::refusal_line;
pub use plan::{Part, Plan};
pub use refusal::{PlanKey, PlanRefusal};
