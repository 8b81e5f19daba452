//! One sweep upwards that finds most long lists of segments free of conflicts, or free of them without few.

pub mod clear;
pub mod finding;
pub mod steps;
pub mod trying;
