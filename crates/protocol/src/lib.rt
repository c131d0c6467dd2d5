//! What registrars and the operator ask, and the answers, as plain records: commands (RFC 5730 to 5733),
//! orders, result codes (RFC 5730, 3) and replies.
#![tactic(auto)]

mod code;
mod command;
mod form;
mod lists;
mod notice;
mod order;
mod reply;
mod session;
mod transfer;
mod years;

pub use code::Code;
pub use command::{
    Action, Command, ContactUpdate, DomainLists, DomainUpdate, HostLists, HostUpdate, NewContact,
    NewDomain, NewHost, Request,
};
pub use form::FormFault;
pub use lists::{Lists, MOST_ADDRESSES, MOST_CONTACTS, MOST_HOSTS};
pub use notice::{Notice, object_text};
pub use order::{OperatorRequest, Order, StatusOrder};
pub use reply::{
    CheckResult, ContactHidden, ContactInfo, Created, Data, Deleted, DomainHidden, DomainInfo,
    HostInfo, Polled, Reason, Renewed, Reply, SvTrid, TransferInfo, Transferred,
};
pub use session::{BeforeLogin, Credentials, InSession};
pub use transfer::TransferOp;
pub use years::Years;
