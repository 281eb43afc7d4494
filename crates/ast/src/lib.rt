// The tree that is read, its nodes and its records.
#![tactic(auto)]

pub mod column;
pub mod flag;
pub mod kind;

ghost use Rattle.std.specs.Prelude.{◌≡◌, ◌≤◌, ◌-◌, ◌++◌, length, take, replicate};
ghost use Rattle.ast.specs.Clear.{Cleared};
ghost use Rattle.ast.specs.Laid.{laid_with};
ghost use Rattle.ast.specs.Largest.{bump};

// The numbers of a comment record, and of a node record.
pub const COMMENT_WIDTH: usize = 9;

pub const NODE_WIDTH: usize = 10;

// The parent of a definition, and of what lies behind the last record.
pub const NO_PARENT: u32 = 4294967295;

// One more of a count, which never passes it.
pub fn bump(n: u32) -> u32
    ensures { result ≡ bump n }
{
    n.saturating_add(1)
}

// A list's values become the same one from an index on. std's `fill` asks that a clone succeed, and promises of clones.
fn fill<T: Copy>(list: &mut [T], from: usize, value: T)
    requires { from ≤ length list.old }
    ensures { list.new ≡ take from list.old ++ replicate (length list.old - from) value }
{
    for slot in &mut list[from..] {
        *slot = value;
    }
}

// A list's values become the default one from an index on.
pub fn clear<T: Copy + Default>(list: &mut [T], from: usize)
    requires { from ≤ length list.old }
    ensures { Cleared T.is_default from list.old list.new }
{
    fill(list, from, T::default());
}

// Values at the front of a list, as many as it holds, and `rest` behind them.
// One by one: by `copy_from_slice`, or a loop over the values alone, the static library would need memcpy and memmove from outside.
pub fn lay<T: Copy>(list: &mut [T], values: &[T], rest: T)
    ensures { list.new ≡ laid_with rest values.now list.old }
{
    for (i, slot) in list.iter_mut().enumerate() {
        *slot = match values.get(i) {
            Some(&value) => value,
            None => rest,
        };
    }
}
