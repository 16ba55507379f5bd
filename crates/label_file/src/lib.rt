// The label file, the list that it comes to, and a list judged by it, over lent buffers.
#![tactic(auto)]

mod form;
mod index;
mod judgement;
mod line;
mod list;
mod refusal;

pub use judgement::judge_list;
pub use list::list_unitigs;
