//! Prices.
ghost use Rattle.std.specs.Prelude.{IfOk};
ghost use Rattle.toml.specs.View.{table_view};
ghost use Rattle.policy.specs.Reading as spec;
ghost use Rattle.policy.specs.{Reading.Gives, Rules.{ArePrices, IsPrice}};

use crate::document::whole_at;
use crate::{Key, PolicyFault};
use toml::Table;

/// Prices in cents, each at most 1,000,000,000 where a policy file gave them.
#[derive(Clone, Copy, Debug, PartialEq, Eq)]
pub struct Prices {
    pub create: u32,
    pub renew: u32,
    pub transfer: u32,
}

#[tactic(auto, unfolding(crate::specs::Reading::price_at))]
fn price_at(document: &Table, key: Key) -> Result<u32, PolicyFault>
    ensures read { Gives (λ n. n) result (spec.price_at (table_view document.now) key) }
    ensures range { IfOk result IsPrice }
{
    whole_at(document, key, 0, 1_000_000_000)
}

/// The table `prices`.
#[tactic(auto, unfolding(crate::specs::Reading::prices_at))]
pub(crate) fn prices_at(document: &Table) -> Result<Prices, PolicyFault>
    ensures read { Gives (λ prices. prices) result (spec.prices_at (table_view document.now)) }
    ensures range { IfOk result ArePrices }
{
    Ok(Prices {
        create: price_at(document, Key::PriceCreate)?,
        renew: price_at(document, Key::PriceRenew)?,
        transfer: price_at(document, Key::PriceTransfer)?,
    })
}
