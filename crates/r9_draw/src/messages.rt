//! What each draw message does (draw(3)): what it asks for, or its first refusal, and how it is carried out.
#![tactic(auto)]

mod doing;
mod fonts;
mod image;
mod listed;
mod lookup;
mod naming;
mod pixels;
mod plan;
mod screen;
mod string;
mod window;

pub use doing::carry_out;
pub use listed::{do_listed, look_listed};
pub use plan::{Loading, Making, Plan, Screening, Task, plan_message};
