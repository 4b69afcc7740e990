// The face: the operations at both widths, with their flags and under an attribute, the reduction, the numerals and the list call, under one roof.
#![tactic(auto)]

pub use flagged::rounded::{fma_rounded, scalbn_rounded, sqrt_rounded};
pub use flagged::{
    Flags, ceil_flags, floor_flags, fma_flags, scalbn_flags, sqrt_flags, trunc_flags,
};
pub use fma::fma::fma;
pub use fma::fused::Fused;
pub use fmod::fmod::fmod;
pub use fmod::routes::Reduced;
pub use fmt_fields::attribute::Attribute;
pub use fmt_fields::env::Flagged;
pub use fmt_fields::refusal::Refusal;
pub use fmt_fields::width::Width;
pub use frexp::answer::Frexp;
pub use frexp::frexp::frexp;
pub use frexp::ilogb::ilogb;
pub use hex_read::read::{read_hex, read_hex_rounded};
pub use hex_write::write::write_hex;
pub use integral::ceil::ceil;
pub use integral::floor::floor;
pub use integral::modf::{Parted, modf};
pub use integral::trunc::trunc;
pub use lists::call::list64;
pub use nextafter::nextafter::nextafter;
pub use reduce::reduce::reduce;
pub use reduce::refusal::refusal;
pub use remquo::answer::Remquo;
pub use remquo::remquo::remquo;
pub use scalbn::scalbn::scalbn;
pub use sqrt::sqrt::sqrt;
pub use sqrt_number::rooted::Rooted;
