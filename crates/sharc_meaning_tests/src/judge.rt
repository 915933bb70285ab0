//! Histories of a dozen events and more, legal and not, and each rule of the modes broken once: tests alone.

mod history;
mod legal;
mod rules;
