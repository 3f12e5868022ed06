//! The rules that options ask for: for each a program that breaks it, whose run breaks the option's promise, beside the
//! same with the least repair. Warnings and runs are written by hand.

mod branches;
mod calls;
mod case;
mod expect;
mod frames;
mod free_calls;
mod harmless;
mod leaving;
mod turning;
