//! What each rule, each kind of refusal, and each reason for which a file fails, means: the texts of `explain`.
#![tactic(auto)]

mod files_that_fail;
mod listing;
mod lookup;
mod refusal;
mod refusals_bad;
mod refusals_f_to_m;
mod refusals_n;
mod refusals_o_to_z;
mod refusals_of_entries;
mod row;
mod rules_10_to_19;
mod rules_1_to_9;
mod rules_21_to_44;
mod rules_45_to_54;
mod volumes;

pub use listing::topics;
pub use lookup::{explanation, is_topic};
pub use refusal::topic_of_refusal;
