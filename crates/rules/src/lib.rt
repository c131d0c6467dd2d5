//! The answer to a command or an order: the table of each command's refusals, the conditions that
//! the tables name, and the data of an accepted command.
#![tactic(auto)]

mod amended;
mod case;
mod charge;
mod conditions;
mod deletion;
mod order;
mod poll;
mod refusal;
mod renewal;
mod response;
mod restoration;
mod rules;
mod transfer;
mod verdict;

pub use charge::{charge_of, years_charged};
pub use deletion::goes_at_once;
pub use order::{OrderCondition, STATUS_ORDER, judge_order};
pub use refusal::Cause;
pub use response::id_of;
pub use rules::{
    CONTACT_CREATION, CONTACT_DELETION, CONTACT_INFO, CONTACT_TRANSFER_ANSWER,
    CONTACT_TRANSFER_CANCEL, CONTACT_TRANSFER_QUERY, CONTACT_TRANSFER_REQUEST, CONTACT_UPDATE,
    Condition, DOMAIN_CREATION, DOMAIN_DELETION, DOMAIN_INFO, DOMAIN_RENEWAL,
    DOMAIN_TRANSFER_ANSWER, DOMAIN_TRANSFER_CANCEL, DOMAIN_TRANSFER_QUERY, DOMAIN_TRANSFER_REQUEST,
    DOMAIN_UPDATE, HOST_CREATION, HOST_DELETION, HOST_INFO, HOST_UPDATE, MESSAGE_ACKNOWLEDGEMENT,
    RESTORE_REPORT, RESTORE_REQUEST,
};
pub use transfer::transfer_after;
pub use verdict::{Verdict, judge};
