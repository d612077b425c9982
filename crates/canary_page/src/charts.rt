//! The charts of a page: which measurements of a metric they show, and how.

pub(crate) mod chart;
pub(crate) mod conditions;
pub(crate) mod figure;
pub(crate) mod numbers;
pub(crate) mod plot;
pub(crate) mod spot;
pub(crate) mod thresholds;
