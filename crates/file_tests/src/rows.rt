//! Tables of `orc_walk`.

mod made;
mod tables;
