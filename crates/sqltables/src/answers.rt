//! Answers that are kept, so that the same question needn't be asked again.
ghost use Rattle.std.specs.Prelude.{◌≡◌, ◌⊎◌, true, map, ℕ, IfOk, IfSome, List, [], ◌∷◌, length};
ghost use Rattle.sqlite_trees.specs.Tree.{Trees};
ghost use Rattle.sqlite_value.specs.Value.{owned};
ghost use Rattle.sqlite.specs.Values.{bound};
ghost use Rattle.sqltables.specs.inner.Answers.{AreRight, IsAnsweredByRows, IsOf, IsPutIn, IsQueryOf, beside, is_short, lasts, lasting};
ghost use Rattle.sqltables.specs.{Content.Content, inner.Content.IsContent};
ghost use Rattle.sqltables.specs.{inner.Statements.{AreOthersSame, Asks}, Tables.registry};

use crate::records::read_all;
use crate::{account, day, meta};
use basis::list::Seq;
use sqlite::Row;
use sqlite::types::ValueRef;
use sqlite_exec::work::FromRow;
use sqlite_value::order::is_same;
use sqlite_value::row::Row as Values;
use sqlrows::Record;
use states::BookFault;
use std::alloc::{AllocError, Global};
use std::marker::Model;

/// How many answers are kept.
const MOST_ANSWERS: usize = 32;

/// How many rows an answer has that is kept, unless it is about `days`.
const MOST_ROWS: usize = 16;

/// A question, as its text and its parameters, and the rows that answer it.
#[derive(Drop)]
pub(crate) struct Answer {
    /// The tree of the table that was asked.
    pub tree: u64,
    pub sql: Vec<u8>,
    pub params: Values,
    pub rows: Vec<Row>,
}

/// The last answers. They are 32 at most, of 16 rows at most but for those of `days`. Each row holds what its
/// row of the database holds, and each answer a copy of its question.
#[derive(Drop)]
pub(crate) struct Answers {
    items: Vec<Answer>,
    alloc: Global,
}

impl Model for Answers {
    ghost use Rattle.std.specs.Prelude.{List};
    ghost use Rattle.sqltables.specs.inner.Answers.{AreFew};
    ghost use Rattle.sqltables.specs.declared.answers.Answer.{Answer};

    ghost Value = { List Answer };

    ghost view = { λ r. r.items.items };

    ghost invariant = { λ r. AreFew r.items.items };
}

/// Whether these are the values of a row, each of its own kind.
fn are_same(kept: &Values, given: &[ValueRef<'_>]) -> bool
    ensures { result ≡ true → kept.now ≡ map owned given.now }
{
    if kept.len() != given.len() {
        return false;
    }
    'values: for at in 0..kept.len() {
        if !is_same(kept.get(at), given[at]) {
            return false;
        }
    }
    true
}

/// A copy of values.
fn copy_of(alloc: Global, given: &[ValueRef<'_>]) -> Result<Values, AllocError>
    ensures { IfOk result (λ copy. copy ≡ map owned given.now) }
{
    let mut copy = Values::new(alloc);
    'values: for value in given {
        copy.push(*value)?;
    }
    Ok(copy)
}

/// A row with these values, alone.
fn only_row(alloc: Global, values: &[ValueRef<'_>]) -> Result<Vec<Row>, AllocError>
    ensures { IfOk result (λ rows. rows.items ≡ map owned values.now ∷ []) }
{
    let values = copy_of(alloc, values)?;
    let row = Row::from_row(alloc, &values)?;
    let mut rows = Vec::new(alloc);
    rows.push(row)?;
    Ok(rows)
}

/// Whether answers about the table in this tree outlast a transaction: that of `account`, `meta` or `days`.
fn lasts(tree: u64) -> bool
    ensures { result ≡ lasts tree }
{
    tree == account::TREE || tree == meta::TREE || tree == day::TREE
}

/// Whether so many rows of the table in this tree are few enough to be kept: those of `days` always are.
fn is_short(tree: u64, count: usize) -> bool
    ensures { result ≡ is_short tree count }
{
    count <= MOST_ROWS || tree == day::TREE
}

impl Answer {
    /// The answer to this question.
    fn new(
        alloc: Global,
        tree: u64,
        sql: &str,
        params: &[ValueRef<'_>],
        rows: Vec<Row>,
    ) -> Result<Answer, AllocError>
        ensures of { IfOk result (λ it. IsOf it sql.now (bound params.now)) }
        ensures tree { IfOk result (λ it. it.tree ≡ tree) }
        ensures rows { IfOk result (λ it. it.rows.items ≡ rows.items) }
    {
        let sql = Vec::from_slice(alloc, sql.as_bytes())?;
        let params = copy_of(alloc, params)?;
        Ok(Answer {
            tree,
            sql,
            params,
            rows,
        })
    }

    /// Whether it answers this question.
    fn is_of(&self, sql: &str, params: &[ValueRef<'_>]) -> bool
        ensures { result ≡ true → IsOf self.now sql.now (bound params.now) }
    {
        if self.sql.len() != sql.len() || !are_same(&self.params, params) {
            return false;
        }
        self.sql.as_slice() == sql.as_bytes()
    }
}

impl Answers {
    /// No answer.
    pub fn none(alloc: Global) -> Answers
        ensures { (db : Trees) → AreRight db result }
    {
        Answers {
            items: Vec::new(alloc),
            alloc,
        }
    }

    /// Keeps none any longer.
    pub fn forget(&mut self)
        ensures right { (db : Trees) → AreRight db self.new }
        ensures none { self.new ≡ [] }
    {
        self.items = Vec::new(self.alloc);
    }

    /// Keeps those alone that were asked of other tables than the one in this tree.
    pub fn forget_of(&mut self, tree: u64)
        ensures { (old new : Trees) → AreOthersSame tree old new → AreRight old self.old
            → AreRight new self.new }
    {
        self.items.retain(|answer| answer.tree != tree);
    }

    /// Keeps those alone that outlast a transaction.
    pub fn forget_passing(&mut self)
        ensures { self.new ≡ lasting self.old }
    {
        self.items.retain(|answer| lasts(answer.tree));
    }

    /// Keeps the rows that answer a question of the table in this tree, where they are few and memory for a
    /// copy of it is there. They take the place of others where those are many.
    pub fn keep(&mut self, tree: u64, sql: &str, params: &[ValueRef<'_>], rows: Vec<Row>)
        requires { IsQueryOf tree sql.now }
        ensures right { (db : Trees) → AreRight db self.old
            → IsAnsweredByRows db sql.now (bound params.now) rows.items → AreRight db self.new }
        ensures kept { (self.new ≡ self.old) ⊎ ((it : Answer) × IsPutIn it self.old self.new) }
    {
        if !is_short(tree, rows.len()) {
            return;
        }
        if let Ok(answer) = Answer::new(self.alloc, tree, sql, params, rows) {
            self.add(answer);
        }
    }

    /// Keeps the row with these values as the answer to a question of the table in this tree, if memory is there.
    pub fn keep_row(&mut self, tree: u64, sql: &str, params: &[ValueRef<'_>], row: &[ValueRef<'_>])
        requires { IsQueryOf tree sql.now }
        ensures { (db : Trees) → AreRight db self.old
            → IsAnsweredByRows db sql.now (bound params.now) (map owned row.now ∷ [])
            → AreRight db self.new }
    {
        if let Ok(rows) = only_row(self.alloc, row) {
            self.keep(tree, sql, params, rows);
        }
    }

    /// Keeps those beside which there is room for one more.
    fn make_room(&mut self)
        ensures { self.new ≡ beside self.old }
    {
        if self.items.len() < MOST_ANSWERS {
            return;
        }
        self.forget_passing();
        if self.items.len() >= MOST_ANSWERS {
            self.forget();
        }
    }

    /// Keeps one more, if memory is there: beside the others, or, where those are as many as may be, beside
    /// those that outlast a transaction.
    fn add(&mut self, answer: Answer)
        requires { is_short answer.tree (length answer.rows.items) ≡ true }
        ensures { IsPutIn answer self.old self.new }
    {
        self.make_room();
        let _ = self.items.push(answer);
    }

    /// The records that the rows show which answer the question, where they are kept.
    pub fn find<R: Record>(
        &self,
        sql: &str,
        params: &[ValueRef<'_>],
    ) -> Option<Result<Seq<R>, BookFault>>
        ensures { (tree : ℕ) (f : Content → List R) (db : Trees) (xs : Content)
            → Asks tree R.shown sql.now (bound params.now) f → AreRight db self.now
            → IsContent xs (record { schema = registry; trees = db })
            → IfSome result (λ found. IfOk found (λ records. records ≡ f xs)) }
    {
        'answers: for answer in &self.items {
            if answer.is_of(sql, params) {
                return Some(read_all(self.alloc, &answer.rows));
            }
        }
        None
    }
}
