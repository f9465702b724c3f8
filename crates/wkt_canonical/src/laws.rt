//! Laws of the definitions: each function does nothing, and its contract is the law.
ghost use Rattle.std.specs.Prelude.{ℕ, ◌≤◌};
ghost use Rattle.std.specs.Fmt.{decimal, signed_decimal};
ghost use Rattle.wkt_num.specs.Decimal.{read_decimal, decimal_text};
ghost use Rattle.wkt_num.specs.Whole.{read_signed, read_unsigned};
ghost use Rattle.wkt_canonical.specs.Canonical.{HasLongText};

/// No text of a decimal or of a whole number is twice as long as what it is read from: there is always room for it.
pub fn texts_are_short()
    ensures decimals { (places : ℕ) → HasLongText (read_decimal 127 36 places) (decimal_text places) → ⊥ }
    ensures signed { (bits : ℕ) → bits ≤ 128 → HasLongText (read_signed bits) signed_decimal → ⊥ }
    ensures unsigned { (bits : ℕ) → bits ≤ 128 → HasLongText (read_unsigned bits) decimal → ⊥ }
{}
