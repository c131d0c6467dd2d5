//! Balances as they are stored: sixteen bytes, two's complement, the highest first.
ghost use Rattle.std.specs.Prelude.{◌≡◌};
ghost use Rattle.sqltables.specs.inner.Balance.{balance_bytes};

/// A balance of so many cents, as its column stores it.
pub fn bytes_of_balance(cents: i128) -> [u8; 16]
    ensures { result ≡ balance_bytes cents }
{
    cents.to_be_bytes()
}
