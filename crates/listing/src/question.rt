ghost use Rattle.std.specs.Prelude.{◌≡◌, ◌≤◌, true, length};
ghost use Rattle.limits.specs.Limits.{table_bytes};
ghost use Rattle.semantics.specs.Table.{nodes_fit, even_table};
ghost use Rattle.condition.specs.Bytes.{table_of};

use site::Site;

// Where a condition holds on a site: what is asked of the evaluator. The condition's table is an accepted one.
#[derive(Clone, Copy)]
pub(crate) struct Question<'a> {
    pub(crate) site: &'a Site<'a>,
    pub(crate) table: &'a [u8],
    pub(crate) ghost short: { length table.now ≤ table_bytes },
    pub(crate) ghost fits: { nodes_fit 0 (table_of table.now) ≡ true },
    pub(crate) ghost even: { even_table (table_of table.now) ≡ true },
}
