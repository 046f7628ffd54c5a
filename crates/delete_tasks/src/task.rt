//! A delete task.

use doc_value::TimeRange;
use query_ast::Query;
use std::marker::Model;

/// A query and times: each document that the query matches and that lies within the times is removed from what
/// was taken in before the task. A task of a later number has the greater opstamp.
#[derive(Drop)]
pub struct Task {
    pub opstamp: u64,
    pub query: Query,
    pub times: TimeRange,
}

impl Model for Task {
    ghost use Rattle.std.specs.Coded.{codes, Coded};
    ghost use Rattle.std.specs.Prelude.{List};
    ghost use Rattle.query_ast.specs.Sought.{view as sought_of};
    ghost use Rattle.delete_tasks.specs.Removes.{DeleteTask};
    ghost use Rattle.delete_tasks.specs.Stored.{sought_code, Mark};

    ghost Value = { DeleteTask };

    ghost coded = { let stored : Coded (List Mark) = Prim.hlevel codes in Prim.hlevel (codes, sought_code stored) };

    ghost view = { λ t. record { opstamp = t.opstamp; query = sought_of t.query; times = t.times } };
}
