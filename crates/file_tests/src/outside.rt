//! The help text (`cli_matches`), and files in memory (`ot_files`).

mod files;
mod help;
