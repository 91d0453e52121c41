// The constant tables of the three fields: powers of the element 2, and exponents, their inverse. An element is a number whose bit i is the
// coefficient of z^i. Each table is tested whole, where a function hands it out.
pub mod exp_a;
pub mod exp_b;
pub mod exp_c;
pub mod log_a;
pub mod log_b;
pub mod log_c;
