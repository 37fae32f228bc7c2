// Vectors, quaternions and matrices of f32, and the scalar functions below them: what the joint
// stages use of box3d's math_functions, module by module.
#![tactic(auto)]

mod arctangent;
pub mod internal;
pub mod mark;
pub mod matrix;
pub mod quat;
pub mod scalar;
pub mod transform;
pub mod types;
pub mod vector;
