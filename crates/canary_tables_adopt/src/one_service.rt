//! What is judged of one service: its runs, their tallies, its measurements and its history.

pub(crate) mod counts;
pub(crate) mod histories;
pub(crate) mod measured;
pub(crate) mod pages;
pub(crate) mod remembered;
pub(crate) mod runs;
pub(crate) mod service;
