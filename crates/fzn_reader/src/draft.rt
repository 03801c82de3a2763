ghost use Rattle.std.specs.Prelude.{◌≡◌, ◌<◌, ◌≤◌, ◌+◌, ◌*◌, is_some, length, None, OnOk, IfErr, IfSome, option_copied, option_map, All};
ghost use Rattle.fzn_model.specs.Limits.{TermIn, OutInLimits, GoalInLimits, DomainInLimits, PickInLimits};
ghost use Rattle.fzn_reader.specs.declared.parse_fault.ParseFault.TheVariants as fault;
ghost use Rattle.fzn_reader.specs.Names.{find_name};
ghost use Rattle.fzn_reader.specs.Drafts.{nothing, with_name, with_dom, with_con, with_out, with_item, with_elements, with_goal};
ghost use Rattle.fzn_reader.specs.Invariants.{DeclKept, ConFits};

use crate::decl::Decl;
use crate::names::Names;
use crate::parse_fault::ParseFault;
use crate::reader::Reader;
use fzn_model::{Con, Goal, List, Model, Out, Pick, Runs};
use std::alloc::Global;

/// What the items so far have stated.
#[derive(Drop)]
pub struct Draft<'a> {
    pub(crate) names: Names<'a>,
    pub(crate) doms: List<Runs>,
    pub(crate) cons: List<Con>,
    pub(crate) outs: List<Out>,
    pub(crate) goal: Option<Goal>,
    pub(crate) search: Option<Reader<'a>>,
    items: u32,
    elements: u32,
}

impl<'a> std::marker::Model for Draft<'a> {
    ghost use Rattle.fzn_reader.specs.Drafts.{Stated};
    ghost use Rattle.fzn_reader.specs.Invariants.{IsDraft};

    ghost Value = { Stated };

    ghost view = { λ d. record { names = d.names; doms = d.doms; cons = d.cons; outs = d.outs; goal = d.goal; search = d.search; items = d.items; elements = d.elements } };

    ghost invariant = { λ d. IsDraft (record { names = d.names; doms = d.doms; cons = d.cons; outs = d.outs; goal = d.goal; search = d.search; items = d.items; elements = d.elements }) };
}

impl<'a> Draft<'a> {
    /// No item yet.
    pub fn new(alloc: Global) -> Draft<'a>
        ensures { result ≡ nothing }
    {
        Draft {
            names: Names::new(alloc),
            doms: List::new(alloc),
            cons: List::new(alloc),
            outs: List::new(alloc),
            goal: None,
            search: None,
            items: 0,
            elements: 0,
        }
    }

    /// What the name stands for.
    pub fn find(&self, name: &[u8]) -> Option<&Decl>
        ensures value { option_copied result ≡ find_name self.now.names name.now }
        ensures kept { IfSome result (λ d. DeclKept self.now.doms d.now) }
    {
        self.names.find(name)
    }

    /// How many variables there are.
    pub fn var_count(&self) -> u32
        ensures value { result ≡ length self.now.doms }
        ensures within { result ≤ 100000 }
        ensures constraints { length self.now.cons ≤ self.now.items + 2 * length self.now.doms }
    {
        self.doms.as_slice().len() as u32
    }

    /// How many constraint items there were.
    pub fn item_count(&self) -> u32
        ensures { result ≡ self.now.items }
    {
        self.items
    }

    /// How many elements of lists there were.
    pub fn element_count(&self) -> u32
        ensures value { result ≡ self.now.elements }
        ensures within { result ≤ 2000000 }
    {
        self.elements
    }

    /// Whether it is said what is sought.
    pub fn has_goal(&self) -> bool
        ensures { result ≡ is_some self.now.goal }
    {
        self.goal.is_some()
    }

    /// A reader at the first search annotation.
    pub fn search(&self) -> Option<Reader<'a>>
        ensures { result ≡ self.now.search }
    {
        match &self.search {
            Some(reader) => Some(reader.fork()),
            None => None,
        }
    }

    /// One name more.
    #[tactic(auto, using(crate::proofs::DraftKept::kept_name))]
    pub fn add_name(&mut self, name: &'a [u8], decl: Decl) -> Result<(), ParseFault>
        requires fresh { find_name self.old.names name.now ≡ None }
        requires kept { DeclKept self.old.doms decl }
        ensures ok { OnOk result (self.new ≡ with_name self.old name.now decl) }
        ensures err { IfErr result (λ e. e ≡ fault.NoMemory) }
    {
        self.names.insert(name, decl)?;
        Ok(())
    }

    /// One domain more.
    #[tactic(auto, using(crate::proofs::DraftKept::kept_dom))]
    pub fn add_dom(&mut self, dom: Runs) -> Result<(), ParseFault>
        requires room { length self.old.doms < 100000 }
        requires kept { DomainInLimits dom }
        ensures ok { OnOk result (self.new ≡ with_dom self.old dom) }
        ensures err { IfErr result (λ e. e ≡ fault.NoMemory) }
    {
        self.doms.push(dom)?;
        Ok(())
    }

    /// One constraint more, of a variable's item.
    #[tactic(auto, using(crate::proofs::DraftKept::kept_con))]
    pub fn add_con(&mut self, con: Con) -> Result<(), ParseFault>
        requires room { length self.old.cons < self.old.items + 2 * length self.old.doms }
        requires kept { ConFits self.old.doms con }
        ensures ok { OnOk result (self.new ≡ with_con self.old con) }
        ensures err { IfErr result (λ e. e ≡ fault.NoMemory) }
    {
        self.cons.push(con)?;
        Ok(())
    }

    /// The constraint of one constraint item more.
    #[tactic(auto, using(crate::proofs::DraftKept::kept_item))]
    pub fn add_item(&mut self, con: Con) -> Result<(), ParseFault>
        requires room { self.old.items < 200000 }
        requires kept { ConFits self.old.doms con }
        ensures ok { OnOk result (self.new ≡ with_item self.old con) }
        ensures err { IfErr result (λ e. e ≡ fault.NoMemory) }
    {
        self.cons.push(con)?;
        self.items += 1;
        Ok(())
    }

    /// One output more.
    #[tactic(auto, using(crate::proofs::DraftKept::kept_out))]
    pub fn add_out(&mut self, out: Out) -> Result<(), ParseFault>
        requires { OutInLimits (length self.old.doms) out }
        ensures ok { OnOk result (self.new ≡ with_out self.old out) }
        ensures err { IfErr result (λ e. e ≡ fault.NoMemory) }
    {
        self.outs.push(out)?;
        Ok(())
    }

    /// So many elements of lists by now.
    pub fn set_elements(&mut self, count: u32)
        requires { count ≤ 2000000 }
        ensures { self.new ≡ with_elements self.old count }
    {
        self.elements = count;
    }

    /// What is sought, and a reader at the first search annotation.
    pub fn set_goal(&mut self, goal: Goal, search: Option<Reader<'a>>)
        requires { GoalInLimits (length self.old.doms) goal }
        ensures { self.new ≡ with_goal self.old goal search.entry }
    {
        self.goal = Some(goal);
        self.search = search;
    }

    /// The model with these search annotations, where it is said what is sought.
    #[tactic(auto, using(crate::proofs::DraftKept::model_kept))]
    pub fn finish(self, order: List<Pick>) -> Option<Model>
        requires { All (PickInLimits (length self.doms)) order }
        ensures { result ≡ option_map (λ g. record { doms = self.entry.doms; cons = self.entry.cons; goal = g; outs = self.entry.outs; order = order }) self.entry.goal }
    {
        let _names = &self.names;
        let Draft {
            names: _,
            doms,
            cons,
            outs,
            goal,
            search: _,
            items: _,
            elements: _,
        } = self;
        let goal = goal?;
        Some(Model {
            doms,
            cons,
            goal,
            outs,
            order,
        })
    }
}
