// The module's non-volatile bytes (NVR): the image, and the commands of register 8000.
#![tactic(auto)]

pub mod command;
pub mod image;
