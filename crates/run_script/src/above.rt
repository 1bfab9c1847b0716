//! What the lines above say.
ghost use Rattle.std.specs.Prelude.{◌≡◌};
ghost use Rattle.scenario.specs.Readings.{Becomes};
ghost use Rattle.scenario.specs.Scripts.{attached_with};
ghost use Rattle.run_script.specs.Above.{attach_added, campaign_added, cancel_added, client_added, has_installed, has_room, installed_added, nothing_above, on_node, shared_added, time_added};
ghost use Rattle.run_script.specs.Taken.{TakesNothing};

use crate::lines::{
    AttachLine, CampaignLine, CancelLine, ClientLine, FailsLine, InstalledLine, Lines, Point,
    TimeLine,
};
use scenario::{Attached, Attachments, Installed, NodeEvent, ScriptLine, Why, WordError};
use std::alloc::Global;
use ucm_base::limits::{CLUSTER_LIMIT, INPUT_LIMIT, PACKAGE_LIMIT};
use ucm_base::{ClusterName, NodeId};

/// What the lines above say.
#[derive(Drop)]
pub struct Above {
    pub lines: Lines,
    pub attachments: Attachments,
    /// How many bytes are attached.
    pub attached: u32,
}

impl Above {
    /// What is known before the first line.
    pub fn new(alloc: Global) -> Above
        ensures { result ≡ nothing_above }
    {
        Above {
            lines: Lines::new(alloc),
            attachments: Attachments::new(alloc),
            attached: 0,
        }
    }

    /// Adds the start time, which stands once.
    pub fn add_time(&mut self, line: u64, time: u64) -> Result<(), WordError>
        ensures read { Becomes result self.new (time_added line self.old time) }
        ensures kept { TakesNothing self.old.lines self.new.lines }
    {
        if self.lines.time.is_some() {
            return Err(WordError::Refused(Why::Twice));
        }
        self.lines.time = Some(TimeLine { line, time });
        Ok(())
    }

    /// Adds the campaign, which stands once.
    pub fn add_campaign(&mut self, line: u64, campaign: u32) -> Result<(), WordError>
        ensures read { Becomes result self.new (campaign_added line self.old campaign) }
        ensures kept { TakesNothing self.old.lines self.new.lines }
    {
        if self.lines.campaign.is_some() {
            return Err(WordError::Refused(Why::Twice));
        }
        self.lines.campaign = Some(CampaignLine { line, campaign });
        Ok(())
    }

    /// Adds the cancel, which stands once.
    pub fn add_cancel(&mut self, line: u64, point: Point) -> Result<(), WordError>
        ensures read { Becomes result self.new (cancel_added line self.old point) }
        ensures kept { TakesNothing self.old.lines self.new.lines }
    {
        if self.lines.cancel.is_some() {
            return Err(WordError::Refused(Why::Twice));
        }
        self.lines.cancel = Some(CancelLine { line, point });
        Ok(())
    }

    /// Whether a cluster of this name is installed on the node.
    fn installs(&self, node: NodeId, name: &ClusterName) -> bool
        ensures { result ≡ has_installed self.now.lines.installed node name.now }
    {
        self.lines.installed.as_slice().iter().any(|l| l.node.number() == node.number()
            && l.cluster.name == *name)
    }

    /// How many clusters are installed on the node.
    fn count_on(&self, node: NodeId) -> usize
        ensures { result ≡ on_node self.now.lines.installed node }
    {
        self.lines
            .installed
            .as_slice()
            .iter()
            .filter(|l| l.node.number() == node.number())
            .count()
    }

    /// Whether one cluster more fits on the node, and its block is no longer than a package.
    fn has_room_for(&self, node: NodeId, cluster: &Installed) -> bool
        ensures { result ≡ has_room self.now node cluster.now }
    {
        (self.count_on(node) as u64) < CLUSTER_LIMIT && cluster.block.len() <= PACKAGE_LIMIT
    }

    /// Adds a cluster, whose name stands once on the node.
    fn add_installed(
        &mut self,
        line: u64,
        node: NodeId,
        cluster: Installed,
    ) -> Result<(), WordError>
        ensures read { Becomes result self.new (installed_added line self.old node cluster) }
        ensures kept { TakesNothing self.old.lines self.new.lines }
    {
        if self.installs(node, &cluster.name) {
            return Err(WordError::Refused(Why::Twice));
        }
        if !self.has_room_for(node, &cluster) {
            return Err(WordError::Refused(Why::Limit));
        }
        self.lines.installed.push(InstalledLine {
            line,
            node,
            cluster,
        })?;
        Ok(())
    }

    /// Adds what a client does.
    pub fn add_client(
        &mut self,
        line: u64,
        is_setup: bool,
        done: NodeEvent,
    ) -> Result<(), WordError>
        ensures read { Becomes result self.new (client_added line is_setup self.old done) }
        ensures kept { TakesNothing self.old.lines self.new.lines }
    {
        let NodeEvent { node, event } = done;
        self.lines.clients.push(ClientLine {
            line,
            is_setup,
            node,
            event,
        })?;
        Ok(())
    }

    /// The attached bytes with these, if they aren't too many.
    fn attached_with(&self, len: u64) -> Option<u32>
        ensures { result ≡ attached_with self.now.attached len }
    {
        match u64::from(self.attached).checked_add(len) {
            Some(all) if all <= INPUT_LIMIT => Some(all as u32),
            _ => None,
        }
    }

    /// Adds an attachment, whose name stands once.
    fn add_attachment(&mut self, line: u64, name: ClusterName, len: u64) -> Result<(), WordError>
        ensures read { Becomes result self.new (attach_added line self.old name len) }
        ensures kept { TakesNothing self.old.lines self.new.lines }
    {
        if self.attachments.named(name).is_some() {
            return Err(WordError::Refused(Why::Twice));
        }
        let Some(all) = self.attached_with(len) else {
            return Err(WordError::Refused(Why::Limit));
        };
        let place = Attached {
            at: self.attached,
            len: all - self.attached,
        };
        self.attachments.add(name, place)?;
        self.lines.attached.push(AttachLine { line, name, len })?;
        self.attached = all;
        Ok(())
    }

    /// Adds what a line says that `replay` has, too.
    pub fn add_shared(&mut self, number: u64, line: ScriptLine) -> Result<(), WordError>
        ensures read { Becomes result self.new (shared_added number self.old line) }
        ensures kept { TakesNothing self.old.lines self.new.lines }
    {
        match line {
            ScriptLine::Time(time) => self.add_time(number, time),
            ScriptLine::Installed { node, cluster } => self.add_installed(number, node, cluster),
            ScriptLine::Happens(done) => self.add_client(number, false, done),
            ScriptLine::Fails { node, name } => {
                self.lines.fails.push(FailsLine {
                    line: number,
                    node,
                    name,
                })?;
                Ok(())
            }
            ScriptLine::Attach { name, len } => self.add_attachment(number, name, len),
        }
    }
}
