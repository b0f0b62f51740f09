//! In which order the nodes of a compressed proof are put.

ghost use Rattle.std.specs.Prelude.{◌≡◌, ◌<◌, ◌≤◌, [], ◌∷◌, ◌++◌, length, map, reverse, replicate, slice_set, false, true, IfOk};
ghost use Rattle.sourcewriting.specs.Nodes.{AreNodes};
ghost use Rattle.sourcewriting.specs.Walked.{Walked, unwalked, visit, work_left, ArePut, WalksOn};

use crate::shared::Shared;
use std::alloc::{AllocError, Global};

/// A node is walked through, or it ends behind its arguments.
#[derive(Clone, Copy)]
struct Task {
    node: usize,
    is_end: bool,
}

/// A node is put: behind its arguments, or again.
#[derive(Clone, Copy)]
pub(crate) struct Put {
    pub(crate) node: usize,
    pub(crate) is_again: bool,
}

/// How far the nodes of a proof were walked through.
#[derive(Drop)]
struct NodeWalk {
    /// Those that were put.
    puts: Vec<Put>,
    /// Of each node, whether its arguments are walked through, or were.
    opened: Vec<bool>,
    /// What is left to do, the next last.
    tasks: Vec<Task>,
}

impl NodeWalk {
    /// Nothing is put, and a node is walked through next.
    fn new(alloc: Global, nodes: usize, root: usize) -> Result<NodeWalk, AllocError>
        ensures puts { IfOk result (λ made. made.puts.items ≡ []) }
        ensures opened { IfOk result (λ made. made.opened.items ≡ replicate nodes false) }
        ensures tasks { IfOk result (λ made. made.tasks.items ≡ record { node = root; is_end = false } ∷ []) }
    {
        let opened = vec![in alloc; false; nodes]?;
        let mut tasks = Vec::new(alloc);
        tasks.push(Task {
            node: root,
            is_end: false,
        })?;
        Ok(NodeWalk {
            puts: Vec::new(alloc),
            opened,
            tasks,
        })
    }

    /// A node is put.
    fn put(&mut self, node: usize, is_again: bool) -> Result<(), AllocError>
        ensures { IfOk result (λ _. self.new ≡ record self.old { puts = self.new.puts }
            × (self.new.puts.items ≡ self.old.puts.items ++ record { node = node; is_again = is_again } ∷ [])) }
    {
        self.puts.push(Put { node, is_again })?;
        Ok(())
    }

    /// A node that isn't open yet is: its arguments are walked through next, and it ends behind them.
    fn open(&mut self, node: usize, arguments: &[usize]) -> Result<(), AllocError>
        requires { node < length self.old.opened.items }
        ensures puts { IfOk result (λ _. self.new.puts ≡ self.old.puts) }
        ensures opened { IfOk result (λ _. self.new.opened.items ≡ slice_set self.old.opened.items node true) }
        ensures tasks { IfOk result (λ _. self.new.tasks.items ≡ self.old.tasks.items ++ record { node = node; is_end = true }
            ∷ reverse (map visit arguments.now)) }
    {
        self.opened[node] = true;
        self.tasks.push(Task { node, is_end: true })?;
        let mut left = arguments.len();
        while left > 0 {
            left -= 1;
            self.tasks.push(Task {
                node: arguments[left],
                is_end: false,
            })?;
        }
        Ok(())
    }

    /// What is next is done.
    fn take(&mut self, shared: &Shared<'_>, task: Task) -> Result<(), AllocError>
        ensures left { IfOk result (λ _. work_left shared.now self.new ≤ work_left shared.now self.old) }
        ensures walks { AreNodes shared.now → IfOk result (λ _. WalksOn shared.now self.old task self.new) }
    {
        let arguments = shared.arguments(task.node);
        if task.is_end || arguments.is_empty() {
            return self.put(task.node, false);
        }
        if task.node >= self.opened.len() || self.opened[task.node] {
            return self.put(task.node, true);
        }
        self.open(task.node, arguments)
    }
}

/// The nodes of a proof in the order in which a compressed one puts them: each behind its arguments; one that has some is put once, and
/// elsewhere it is put again.
pub(crate) fn puts_of(
    alloc: Global,
    shared: &Shared<'_>,
    root: usize,
) -> Result<Vec<Put>, AllocError>
    ensures { AreNodes shared.now → root < length shared.now.nodes.items → IfOk result (λ puts. (end : Walked)
        × ArePut shared.now puts.items (unwalked (length shared.now.nodes.items)) end) }
{
    let mut walk = NodeWalk::new(alloc, shared.len(), root)?;
    while let Some(task) = walk.tasks.pop() {
        walk.take(shared, task)?;
    }
    let NodeWalk { puts, .. } = walk;
    Ok(puts)
}
