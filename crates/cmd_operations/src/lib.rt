// The operations by name, requests read, and answers and complaints as lines to be written.
//
// To add an operation: its row in `OPERATIONS` (table.rt); the same row, with the definition that answers it, in specs/Table.antt; its call in `answer_of` or,
// under an attribute, `answer_under` (crates/pk/src/call.rt); and its line in the list below, which `./pk --help` prints.
//
//   floor64 X           floor64 c004000000000000                      the greatest whole number not above X
//   floor32 X           floor32 bf000000
//   trunc64 X           trunc64 bfe8000000000000                      X without its fraction
//   trunc32 X           trunc32 40200000
//   scalbn64 X N        scalbn64 3ff8000000000000 -1075               X times 2^N, rounded once
//   scalbn32 X N        scalbn32 3f800000 128
//   fmod64 X Y          fmod64 4016000000000000 4000000000000000      the remainder of X by Y, toward zero
//   fmod32 X Y          fmod32 c0800000 40000000
//   remquo64 X Y        remquo64 c01c000000000000 4000000000000000    the remainder of X by the nearest multiple of Y, and its number modulo 2^31
//   reduce64 X SHIFT Y  reduce64 0000000000000005 3 0000000000000007  0 or a refusal, and the plain number (X times 2^SHIFT) mod Y
//   reduce32 X SHIFT Y  reduce32 00000005 3 00000000
//   sqrt64 X            sqrt64 4000000000000000                       the root of X, rounded once
//   sqrt32 X            sqrt32 40000000
//   fma64 X Y Z         fma64 4000000000000000 4008000000000000 3ff0000000000000  X times Y plus Z, rounded once
//   fma32 X Y Z         fma32 40000000 40400000 3f800000
//   ceil64 X            ceil64 bfe8000000000000                       the least whole number not below X
//   ceil32 X            ceil32 3f000000
//   modf64 X            modf64 c004000000000000                       X's fraction and X without it, both with the sign of X
//   modf32 X            modf32 40200000
//   frexp64 X           frexp64 4020000000000000                      R from 1/2 up to below 1 in magnitude, and N, where X is R times 2^N
//   frexp32 X           frexp32 80000001
//   ilogb64 X           ilogb64 0000000000000001                      the greatest N for which 2^N is not above X in magnitude
//   ilogb32 X           ilogb32 41200000
//   nextafter64 X Y     nextafter64 3ff0000000000000 7ff0000000000000  the number next to X toward Y
//   nextafter32 X Y     nextafter32 00000000 bf800000
//   sqrt64.A X          sqrt64.up 4000000000000000                    0 or refusal 10, and the root of X, rounded once under A
//   sqrt32.A X          sqrt32.down 40000000
//   fma64.A X Y Z       fma64.down 3ff0000000000000 3ff0000000000000 bff0000000000000  0 or refusal 10, and X times Y plus Z, rounded once under A
//   fma32.A X Y Z       fma32.zero 40000000 40400000 3f800000
//   scalbn64.A X N      scalbn64.away 3ff8000000000000 -1075          0 or refusal 10, and X times 2^N, rounded once under A
//   scalbn32.A X N      scalbn32.1 3f800000 128
#![tactic(auto)]

pub mod answers;
pub mod complaint;
pub mod request;
pub mod table;
