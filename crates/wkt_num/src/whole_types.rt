//! The whole number types.
ghost use Rattle.std.proofs.Common.{lit≤};
ghost use Rattle.wkt_num.specs.Whole.{signed_form, unsigned_form};
ghost use Rattle.wkt_num.specs.WholeLaws.{signed_laws, signed_same, unsigned_laws, unsigned_same};

use crate::whole::Whole;

impl Whole for i8 {
    const DIGITS: usize = 2;

    ghost DIGITS = { 2 };

    ghost form = { signed_form 7 };

    ghost form_holds = { signed_laws 7 2 (lit≤ tt) (lit≤ tt) (lit≤ tt) };

    ghost same = { signed_same };

    #[tactic(auto, using(crate::proofs::ReadNumbers::parse_read_signed))]
    fn parse(text: &str) -> Option<i8> {
        text.parse::<i8>().ok()
    }

    #[inline(always)]
    fn of_digits(negative: bool, digits: u64) -> Option<i8> {
        let number = digits as i8;
        Some(if negative { -number } else { number })
    }

    #[inline(always)]
    fn parts(&self) -> (bool, u128) {
        (*self < 0, u128::from(self.unsigned_abs()))
    }
}

impl Whole for i16 {
    const DIGITS: usize = 4;

    ghost DIGITS = { 4 };

    ghost form = { signed_form 15 };

    ghost form_holds = { signed_laws 15 4 (lit≤ tt) (lit≤ tt) (lit≤ tt) };

    ghost same = { signed_same };

    #[tactic(auto, using(crate::proofs::ReadNumbers::parse_read_signed))]
    fn parse(text: &str) -> Option<i16> {
        text.parse::<i16>().ok()
    }

    #[inline(always)]
    fn of_digits(negative: bool, digits: u64) -> Option<i16> {
        let number = digits as i16;
        Some(if negative { -number } else { number })
    }

    #[inline(always)]
    fn parts(&self) -> (bool, u128) {
        (*self < 0, u128::from(self.unsigned_abs()))
    }
}

impl Whole for i32 {
    const DIGITS: usize = 9;

    ghost DIGITS = { 9 };

    ghost form = { signed_form 31 };

    ghost form_holds = { signed_laws 31 9 (lit≤ tt) (lit≤ tt) (lit≤ tt) };

    ghost same = { signed_same };

    #[tactic(auto, using(crate::proofs::ReadNumbers::parse_read_signed))]
    fn parse(text: &str) -> Option<i32> {
        text.parse::<i32>().ok()
    }

    #[inline(always)]
    fn of_digits(negative: bool, digits: u64) -> Option<i32> {
        let number = digits as i32;
        Some(if negative { -number } else { number })
    }

    #[inline(always)]
    fn parts(&self) -> (bool, u128) {
        (*self < 0, u128::from(self.unsigned_abs()))
    }
}

impl Whole for i64 {
    const DIGITS: usize = 18;

    ghost DIGITS = { 18 };

    ghost form = { signed_form 63 };

    ghost form_holds = { signed_laws 63 18 (lit≤ tt) (lit≤ tt) (lit≤ tt) };

    ghost same = { signed_same };

    #[tactic(auto, using(crate::proofs::ReadNumbers::parse_read_signed))]
    fn parse(text: &str) -> Option<i64> {
        text.parse::<i64>().ok()
    }

    #[inline(always)]
    fn of_digits(negative: bool, digits: u64) -> Option<i64> {
        let number = digits as i64;
        Some(if negative { -number } else { number })
    }

    #[inline(always)]
    fn parts(&self) -> (bool, u128) {
        (*self < 0, u128::from(self.unsigned_abs()))
    }
}

impl Whole for i128 {
    const DIGITS: usize = 38;

    ghost DIGITS = { 38 };

    ghost form = { signed_form 127 };

    ghost form_holds = { signed_laws 127 38 (lit≤ tt) (lit≤ tt) (lit≤ tt) };

    ghost same = { signed_same };

    #[tactic(auto, using(crate::proofs::ReadNumbers::parse_read_signed))]
    fn parse(text: &str) -> Option<i128> {
        text.parse::<i128>().ok()
    }

    #[inline(always)]
    fn of_digits(negative: bool, digits: u64) -> Option<i128> {
        let number = digits as i128;
        Some(if negative { -number } else { number })
    }

    #[inline(always)]
    fn parts(&self) -> (bool, u128) {
        (*self < 0, self.unsigned_abs())
    }
}

impl Whole for u8 {
    const DIGITS: usize = 2;

    ghost DIGITS = { 2 };

    ghost form = { unsigned_form 8 };

    ghost form_holds = { unsigned_laws 8 2 (lit≤ tt) (lit≤ tt) (lit≤ tt) };

    ghost same = { unsigned_same };

    #[tactic(auto, using(crate::proofs::ReadNumbers::parse_read_unsigned))]
    fn parse(text: &str) -> Option<u8> {
        text.parse::<u8>().ok()
    }

    #[inline(always)]
    fn of_digits(negative: bool, digits: u64) -> Option<u8> {
        if negative { None } else { Some(digits as u8) }
    }

    #[inline(always)]
    fn parts(&self) -> (bool, u128) {
        (false, u128::from(*self))
    }
}

impl Whole for u16 {
    const DIGITS: usize = 4;

    ghost DIGITS = { 4 };

    ghost form = { unsigned_form 16 };

    ghost form_holds = { unsigned_laws 16 4 (lit≤ tt) (lit≤ tt) (lit≤ tt) };

    ghost same = { unsigned_same };

    #[tactic(auto, using(crate::proofs::ReadNumbers::parse_read_unsigned))]
    fn parse(text: &str) -> Option<u16> {
        text.parse::<u16>().ok()
    }

    #[inline(always)]
    fn of_digits(negative: bool, digits: u64) -> Option<u16> {
        if negative { None } else { Some(digits as u16) }
    }

    #[inline(always)]
    fn parts(&self) -> (bool, u128) {
        (false, u128::from(*self))
    }
}

impl Whole for u32 {
    const DIGITS: usize = 9;

    ghost DIGITS = { 9 };

    ghost form = { unsigned_form 32 };

    ghost form_holds = { unsigned_laws 32 9 (lit≤ tt) (lit≤ tt) (lit≤ tt) };

    ghost same = { unsigned_same };

    #[tactic(auto, using(crate::proofs::ReadNumbers::parse_read_unsigned))]
    fn parse(text: &str) -> Option<u32> {
        text.parse::<u32>().ok()
    }

    #[inline(always)]
    fn of_digits(negative: bool, digits: u64) -> Option<u32> {
        if negative { None } else { Some(digits as u32) }
    }

    #[inline(always)]
    fn parts(&self) -> (bool, u128) {
        (false, u128::from(*self))
    }
}

impl Whole for u64 {
    const DIGITS: usize = 19;

    ghost DIGITS = { 19 };

    ghost form = { unsigned_form 64 };

    ghost form_holds = { unsigned_laws 64 19 (lit≤ tt) (lit≤ tt) (lit≤ tt) };

    ghost same = { unsigned_same };

    #[tactic(auto, using(crate::proofs::ReadNumbers::parse_read_unsigned))]
    fn parse(text: &str) -> Option<u64> {
        text.parse::<u64>().ok()
    }

    #[inline(always)]
    fn of_digits(negative: bool, digits: u64) -> Option<u64> {
        if negative { None } else { Some(digits) }
    }

    #[inline(always)]
    fn parts(&self) -> (bool, u128) {
        (false, u128::from(*self))
    }
}

impl Whole for u128 {
    const DIGITS: usize = 38;

    ghost DIGITS = { 38 };

    ghost form = { unsigned_form 128 };

    ghost form_holds = { unsigned_laws 128 38 (lit≤ tt) (lit≤ tt) (lit≤ tt) };

    ghost same = { unsigned_same };

    #[tactic(auto, using(crate::proofs::ReadNumbers::parse_read_unsigned))]
    fn parse(text: &str) -> Option<u128> {
        text.parse::<u128>().ok()
    }

    #[inline(always)]
    fn of_digits(negative: bool, digits: u64) -> Option<u128> {
        if negative { None } else { Some(digits as u128) }
    }

    #[inline(always)]
    fn parts(&self) -> (bool, u128) {
        (false, *self)
    }
}
