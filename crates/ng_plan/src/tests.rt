//! Tables of logs and their plans.

mod whole;
