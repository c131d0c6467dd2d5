//! The policy of the registry.
ghost use Rattle.std.specs.Prelude.{◌≡◌, length, option_copied, IfOk, IfSome};
ghost use Rattle.toml.specs.View.{table_view};
ghost use Rattle.policy.specs.Reading as spec;
ghost use Rattle.policy.specs.Reading.{Gives};
ghost use Rattle.policy.specs.Rules.{AreTimes, IsRegistrar, IsPrice, IsRegistrarCount, IsSound, id_at, place_of, place_of_login};
ghost use Rattle.policy.specs.Terms.{terms_of};

use crate::dated::schedule_at;
use crate::document::document_of;
use crate::passwords::Passwords;
use crate::prices::prices_at;
use crate::registrar::{index_of, number_at, registrars_at};
use crate::soa::soa_at;
use crate::texts::{labels_at, text_at};
use crate::{Key, PolicyFault, Prices, Schedule, Soa, Terms};
use basis::list::Seq;
use basis::registrar::RegistrarNo;
use basis::text::Text;
use names::Zone;
use std::alloc::{AllocError, Global};
use std::marker::Model;
use toml::Table;

/// The values that a registry is run by.
#[derive(Drop)]
pub struct Policy {
    zone: Zone,
    days: Schedule,
    prices: Prices,
    soa: Soa,
    ids: Seq<Text>,
}

impl Model for Policy {
    ghost use Rattle.std.specs.Coded.{codes};
    ghost use Rattle.basis.specs.Sets.{names_code};
    ghost use Rattle.policy.specs.Rules.{AreSound, PolicyRules};

    ghost Value = { PolicyRules };

    ghost coded = { Prim.hlevel (codes, names_code) };

    ghost view = { λ p. record { zone = p.zone; days = p.days; prices = p.prices; soa = p.soa; ids = p.ids } };

    ghost invariant = { λ p. AreSound p.days p.prices p.soa p.ids };
}

#[tactic(auto, unfolding(crate::specs::Reading::file_at))]
fn file_at(alloc: Global, document: &Table) -> Result<PolicyFile, PolicyFault>
    ensures read { Gives (λ file. file) result (spec.file_at (table_view document.now)) }
    ensures sound { IfOk result (λ file. IsSound file.policy) }
{
    let label = text_at(alloc, document, Key::Zone)?;
    let reserved = labels_at(alloc, document, Key::Reserved)?;
    let days = schedule_at(alloc, document)?;
    let prices = prices_at(document)?;
    let soa = soa_at(alloc, document)?;
    let registrars = registrars_at(alloc, document)?;
    Ok(PolicyFile {
        policy: Policy {
            zone: Zone::new(label, Seq::from_vec(reserved)),
            days,
            prices,
            soa,
            ids: registrars.ids,
        },
        passwords: Passwords::new(registrars.passwords),
    })
}

/// What a policy's file holds.
#[derive(Drop)]
pub struct PolicyFile {
    pub policy: Policy,
    pub passwords: Passwords,
}

impl PolicyFile {
    /// What a file holds, or its first fault in the order of [`Key`]. A key's fault is found before
    /// that of the next key, and of several registrars one that lacks a key before all that is wrong
    /// with the key's values.
    #[tactic(auto, unfolding(crate::specs::Reading::file_of))]
    pub fn read(alloc: Global, bytes: &[u8]) -> Result<PolicyFile, PolicyFault>
        ensures read { Gives (λ file. file) result (spec.file_of bytes.now) }
        ensures sound { IfOk result (λ file. IsSound file.policy) }
    {
        let document = document_of(alloc, bytes)?;
        file_at(alloc, &document)
    }
}

impl Policy {
    /// The policy of a file, where nobody logs in.
    #[tactic(auto, unfolding(crate::specs::Reading::policy_of))]
    pub fn read(alloc: Global, bytes: &[u8]) -> Result<Policy, PolicyFault>
        ensures read { Gives (λ policy. policy) result (spec.policy_of bytes.now) }
        ensures sound { IfOk result IsSound }
    {
        let file = PolicyFile::read(alloc, bytes)?;
        Ok(file.policy)
    }

    /// Does nothing. It tells a proof that every policy's values are within their ranges, and that no two of
    /// its registrars have one id.
    pub fn show_sound(&self)
        ensures { IsSound self.now }
    {
        let _ = &self.days;
    }

    /// The zone, and the labels that no domain in it may have.
    pub fn zone(&self) -> &Zone
        ensures { result.now ≡ self.now.zone }
    {
        &self.zone
    }

    /// The zone's start of authority.
    pub fn soa(&self) -> &Soa
        ensures value { result.now ≡ self.now.soa }
        ensures range { AreTimes self.now.soa }
    {
        &self.soa
    }

    /// The lengths of periods over time.
    pub fn schedule(&self) -> &Schedule
        ensures { result.now ≡ self.now.days }
    {
        &self.days
    }

    /// The price of a year of a create in cents, from 0 to 1,000,000,000.
    pub fn create_price(&self) -> u32
        ensures value { result ≡ self.now.prices.create }
        ensures range { IsPrice result }
    {
        self.prices.create
    }

    /// The price of a year of a renewal in cents, from 0 to 1,000,000,000.
    pub fn renew_price(&self) -> u32
        ensures value { result ≡ self.now.prices.renew }
        ensures range { IsPrice result }
    {
        self.prices.renew
    }

    /// The price of a transfer in cents, from 0 to 1,000,000,000.
    pub fn transfer_price(&self) -> u32
        ensures value { result ≡ self.now.prices.transfer }
        ensures range { IsPrice result }
    {
        self.prices.transfer
    }

    /// How many registrars there are, from 1 to 1,000.
    pub fn registrars(&self) -> u32
        ensures value { result ≡ length self.now.ids }
        ensures range { IsRegistrarCount result }
    {
        self.ids.as_slice().len() as u32
    }

    /// The registrar with this id.
    pub fn find(&self, id: &str) -> Option<RegistrarNo>
        ensures value { result ≡ place_of id.now self.now }
        ensures place { IfSome result (IsRegistrar self.now) }
    {
        let index = index_of(self.ids.as_slice(), id)?;
        Some(number_at(index))
    }

    /// The registrar with this id and password.
    pub fn login(&self, passwords: &Passwords, id: &str, password: &str) -> Option<RegistrarNo>
        ensures value { result ≡ place_of_login id.now password.now self.now passwords.now }
        ensures place { IfSome result (IsRegistrar self.now) }
    {
        let registrar = self.find(id)?;
        if passwords.has(registrar, password) {
            Some(registrar)
        } else {
            None
        }
    }

    /// The id of a registrar. None where the policy has no such place.
    pub fn id_of(&self, registrar: RegistrarNo) -> Option<&Text>
        ensures { option_copied result ≡ id_at self.now registrar }
    {
        let index = registrar.place().checked_sub(1)?;
        self.ids.as_slice().get(index as usize)
    }

    /// What a registry's book is used under.
    pub fn terms(&self, alloc: Global) -> Result<Terms, AllocError>
        ensures { IfOk result (λ terms. terms ≡ terms_of self.now) }
    {
        Ok(Terms {
            zone: self.zone.label().clone()?,
            reserved: self.zone.reserved().clone()?,
            days: self.days.clone()?,
            prices: self.prices,
            ids: self.ids.clone()?,
        })
    }
}
