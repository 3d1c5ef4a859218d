//! Doing an operation.

ghost use Rattle.std.specs.Prelude.{◌≡◌};
ghost use Rattle.mini_store.specs.Done.{Answers, Does};
ghost use Rattle.mini_store.specs.Operations.{effect};

use crate::answer::Answer;
use crate::fault::Fault;
use crate::op::Op;
use crate::tables::Tables;
use pgw_frames::NoMemory;

impl Tables {
    /// Does an operation. A fault changes nothing.
    fn perform(&mut self, op: &Op) -> Result<Answer, Fault>
        ensures { Does result self.old self.new (effect self.old op.now) }
    {
        match op {
            Op::Create { table, columns } => self.create(table.as_str(), columns.as_slice()),
            Op::Insert { table, values } => self.insert(table.as_str(), values),
            Op::Select {
                table,
                names,
                filter,
            } => self.select(table.as_str(), names.as_slice(), filter),
            Op::Update {
                table,
                change,
                filter,
            } => self.update(table.as_str(), change, filter),
            Op::Delete { table, filter } => self.delete(table.as_str(), filter),
            Op::CopyIn { table, rows } => self.copy_in(table.as_str(), rows.as_slice()),
            Op::Shape { table } => self.shape(table.as_str()),
        }
    }

    /// Answers an operation, which changes nothing where the answer is `Bad`. An `Err` changes nothing.
    pub(crate) fn answer(&mut self, op: &Op) -> Result<Answer, NoMemory>
        ensures { Answers result self.old self.new (effect self.old op.now) }
    {
        match self.perform(op) {
            Ok(answer) => Ok(answer),
            Err(Fault::Bad(code)) => Ok(Answer::Bad(code)),
            Err(Fault::NoMemory) => Err(NoMemory),
        }
    }
}
