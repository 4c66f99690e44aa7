//! Where the words of a decoder block stand, as `specs/Words.antt` names it for contracts. (CXL HDM decoder
//! capability.)

ghost use Rattle.std.specs.Prelude.{◌≡◌, ◌<◌, ◌≤◌};
ghost use Rattle.cxl_regs.specs.Words.{offset_of, index_at, place_at, head_size};

/// The offset of the global control of an endpoint.
pub const GLOBAL_CONTROL: u32 = 4;

/// The place of the low half of the base among a decoder's eight words.
pub const BASE_LOW: u32 = 0;

/// The place of the high half of the base.
pub const BASE_HIGH: u32 = 1;

/// The place of the low half of the size.
pub const SIZE_LOW: u32 = 2;

/// The place of the high half of the size.
pub const SIZE_HIGH: u32 = 3;

/// The place of the control.
pub const CONTROL: u32 = 4;

/// The place of the low half of the target list, or of the skip.
pub const TAIL_LOW: u32 = 5;

/// The place of the high half of the target list, or of the skip.
pub const TAIL_HIGH: u32 = 6;

/// The place of the reserved word.
pub const RESERVED: u32 = 7;

/// How many bytes stand before the words of the first decoder.
pub(crate) const HEAD_SIZE: u32 = 0x10;

/// How many bytes a decoder's words take.
const DECODER_SIZE: u32 = 0x20;

/// The offset at which the word at a place of decoder `i` stands.
pub fn offset_of(i: u8, place: u32) -> u32
    requires { place < 8 }
    ensures offset { result ≡ offset_of i place }
    ensures index { index_at result ≡ i }
    ensures place { place_at result ≡ place }
{
    HEAD_SIZE + DECODER_SIZE * u32::from(i) + 4 * place
}

/// Which decoder's word stands at an offset past the head.
pub(crate) fn index_at(off: u32) -> usize
    requires { head_size ≤ off }
    ensures { result ≡ index_at off }
{
    ((off - HEAD_SIZE) / DECODER_SIZE) as usize
}

/// Which of its decoder's eight words stands at an offset past the head.
pub(crate) fn place_at(off: u32) -> u32
    requires { head_size ≤ off }
    ensures place { result ≡ place_at off }
    ensures word { result < 8 }
{
    (off - HEAD_SIZE) % DECODER_SIZE / 4
}
