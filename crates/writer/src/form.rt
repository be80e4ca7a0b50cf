// The form of a node with those of its children.
ghost use Rattle.pages.specs.Trees.{tree};
ghost use Rattle.writer.specs.Walk.{Forms, Stands};

use crate::output::{Full, Output};
use pages::Nodes;

impl Output<'_> {
    // Writes the form of the tree whose root is in this row, each child on a line of its own, and gives the
    // row after those of the tree.
    pub(crate) fn put_form(
        &mut self,
        nodes: Nodes<'_>,
        row: usize,
        indent: usize,
    ) -> Result<usize, Full>
        requires { Stands nodes.rows.now nodes.text.now row indent }
        ensures { (s : Stands nodes.entry.rows.now nodes.entry.text.now row indent) → Forms (tree s.label s.forest) indent row self.old self.new result }
    {
        let root = nodes.rows[row];
        self.put_opening(indent, root.kind, root.start)?;
        self.put_marks(root.flags, root.text, nodes.text)?;
        let mut next = row + 1;
        for _ in 0..root.children {
            self.put(b'\n')?;
            next = self.put_form(nodes, next, indent + 1)?;
        }
        self.put(b')')?;
        Ok(next)
    }
}
