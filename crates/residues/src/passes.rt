ghost use Rattle.std.specs.Prelude.{◌≡◌, ◌<◌, is_some};
ghost use Rattle.std.specs.Int.{div_ceil};
ghost use Rattle.model_setup.specs.ResidueDecoding.{group_steps, pass_steps, steps};
ghost use Rattle.residues.specs.Decoders.{HasRoom, Leads};

use crate::decoder::{Decoder, Workspace};

impl Decoder<'_> {
    /// Reads a group of partitions in a pass. `None` is the end of the packet, here and above.
    fn read_group(&self, workspace: &mut Workspace, pass: usize, group: usize) -> Option<()>
        requires room { HasRoom self.now workspace.old }
        requires pass { pass < 8 }
        requires group { group < div_ceil self.now.partitions self.now.classwords }
        ensures { Leads self.now
            (group_steps self.now.partitions self.now.classwords self.now.wanted.now pass group)
            workspace.old workspace.new (is_some result) }
    {
        self.read_words_in(workspace, pass, group)?;
        self.read_partitions(workspace, pass, group)
    }

    /// Reads a pass over all groups.
    fn read_pass(&self, workspace: &mut Workspace, pass: usize) -> Option<()>
        requires room { HasRoom self.now workspace.old }
        requires pass { pass < 8 }
        ensures { Leads self.now
            (pass_steps self.now.partitions self.now.classwords self.now.wanted.now pass)
            workspace.old workspace.new (is_some result) }
    {
        for group in 0..self.partitions.div_ceil(self.classwords) {
            self.read_group(workspace, pass, group)?;
        }
        Some(())
    }

    /// Reads all passes, or those before the end of the packet.
    pub fn read_passes(&self, workspace: &mut Workspace) -> Option<()>
        requires room { HasRoom self.now workspace.old }
        ensures { Leads self.now
            (steps self.now.partitions self.now.classwords self.now.wanted.now) workspace.old
            workspace.new (is_some result) }
    {
        for pass in 0..8 {
            self.read_pass(workspace, pass)?;
        }
        Some(())
    }
}
