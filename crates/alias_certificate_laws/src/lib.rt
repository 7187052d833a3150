//! What `certify` prints reads back as the certificate of the inference, and checks accept what inferences hand out.
#![tactic(auto)]

pub mod accepting;
pub mod text;
