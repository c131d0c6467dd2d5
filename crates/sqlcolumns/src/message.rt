//! Messages as rows, whose columns order them as a queue does.
ghost use Rattle.std.specs.Prelude.{◌≡◌, Some, IfOk, IfSome};
ghost use Rattle.std.proofs.Common.{rules};
ghost use Rattle.accounts.specs.declared.message.Message.{Message};
ghost use Rattle.calendar.specs.Moment.{IsMoment};
ghost use Rattle.sqlcolumns.specs.Messages as spec;
ghost use Rattle.sqlcolumns.specs.Numbers.{exact_in};

use crate::code::Coded;
use crate::moment::{moment_column, moment_of_column};
use crate::number::{exact_column, exact_of_column};
use accounts::{CommandNotice, LapseNotice, Message, Origin, Subject};
use sqltables::MessageRow;
use std::alloc::AllocError;

/// The columns of a message's origin.
#[derive(Clone, Copy, Drop)]
pub(crate) struct OriginColumns {
    pub class: i64,
    pub number: i64,
    pub notice: i64,
}

/// In the order of its letters.
impl Coded for LapseNotice {
    ghost code = { spec.lapse_notice_column };

    ghost all = { spec.all_lapse_notices };

    ghost back = { Prim.search rules };

    fn all() -> &'static [LapseNotice] {
        &[
            LapseNotice::RenewedAutomatically,
            LapseNotice::Purged,
            LapseNotice::TransferApproved,
        ]
    }

    fn column(self) -> i64 {
        self as i64
    }
}

impl Coded for CommandNotice {
    ghost code = { spec.command_notice_column };

    ghost all = { spec.all_command_notices };

    ghost back = { Prim.search rules };

    fn all() -> &'static [CommandNotice] {
        &[
            CommandNotice::TransferRequested,
            CommandNotice::TransferApproved,
            CommandNotice::TransferRejected,
            CommandNotice::TransferCancelled,
        ]
    }

    fn column(self) -> i64 {
        self as i64
    }
}

/// The columns of an origin; none where a command's number is too great.
fn origin_columns(origin: Origin) -> Option<OriginColumns>
    ensures { result ≡ spec.origin_columns origin }
{
    match origin {
        Origin::Lapse(notice) => Some(OriginColumns {
            class: 0,
            number: notice.column(),
            notice: 0,
        }),
        Origin::Command(number, notice) => Some(OriginColumns {
            class: 1,
            number: exact_column(number)?,
            notice: notice.column(),
        }),
    }
}

/// The origin of a message's row, if its columns are one's.
fn origin_of_row(row: &MessageRow) -> Option<Origin>
    ensures { result ≡ spec.origin_in (spec.origin_of row.now) }
{
    if row.class == 0 && row.notice == 0 {
        return Some(Origin::Lapse(LapseNotice::of_column(row.number)?));
    }
    if row.class == 1 {
        return command_of_row(row);
    }
    None
}

fn command_of_row(row: &MessageRow) -> Option<Origin>
    ensures { result ≡ spec.command_made (exact_in row.now.number) (spec.command_notice_in
        row.now.notice) }
{
    let number = exact_of_column(row.number)?;
    Some(Origin::Command(number, CommandNotice::of_column(row.notice)?))
}

/// The row of a message, under its number and its account's; none where the recipient's number of it
/// is too great.
pub fn message_row(
    id: i64,
    account: i64,
    message: &Message,
) -> Result<Option<MessageRow>, AllocError>
    ensures { IfOk result (λ row. row ≡ spec.row_of_message id account message.now) }
{
    let name = message.name.clone()?;
    let Some(origin) = origin_columns(message.origin) else {
        return Ok(None);
    };
    Ok(Some(MessageRow {
        id,
        account,
        moment: moment_column(message.moment),
        class: origin.class,
        number: origin.number,
        name,
        subject: message.subject.column(),
        notice: origin.notice,
    }))
}

/// The message of a row, if it's one's.
#[tactic(auto, using(crate::proofs::MessageLemmas::message_written, crate::proofs::MessageLemmas::message_back))]
pub fn message_of_row(row: MessageRow) -> Option<Message>
    ensures value { result ≡ spec.message_of_columns row }
    ensures found { IfSome result (λ m. spec.row_of_message row.id row.account m ≡ Some row) }
    ensures only { (m : Message) → IsMoment m.moment
        → spec.row_of_message row.id row.account m ≡ Some row → result ≡ Some m }
{
    let moment = moment_of_column(row.moment)?;
    let origin = origin_of_row(&row)?;
    let subject = Subject::of_column(row.subject)?;
    Some(Message {
        moment,
        origin,
        name: row.name,
        subject,
    })
}
