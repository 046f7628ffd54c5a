//! A client's searcher and its steps.

ghost use Rattle.std.specs.Prelude.{◌≡◌, ◌+◌, ◌-◌, ◌^◌, ◌<◌, ◌≤◌, ◌++◌, ◌∷◌, [], ℕ, List, length, min, slice_get, None, Some, Ok, Err, IfOk, IsSome, MatchResult};
ghost use Rattle.source_log.specs.Log.{Log, IsLog};
ghost use Rattle.doc_value.specs.Documents.{IsSchema};
ghost use Rattle.doc_value.specs.declared.schema.Schema.{Schema};
ghost use Rattle.index_world.specs.Calls.{Trouble, Unmade};
ghost use Rattle.index_world.specs.Core.{Core, IsConfigured};
ghost use Rattle.index_world.specs.Gate.{CanAddTask, IsTrouble, IsUnmade};
ghost use Rattle.index_config.specs.declared.config.IndexConfig as configs;
ghost use Rattle.meta_store.specs.declared.planning.PlanRow.{PlanRow};
ghost use Rattle.search_api.specs.Resolved.{IsDelete, IsSearch, Search};
ghost use Rattle.search_api.specs.declared.resolved.Deletion.{Deletion};
ghost use Rattle.search_api.specs.declared.unanswered.Unanswered.TheVariants as reasons;
ghost use Rattle.root_search.specs.Drawing.{NeverFetched, StepDraws};
ghost use Rattle.root_search.specs.ReadSearches.{IsRead};
ghost use Rattle.root_search.specs.Requests.{ask_of, asked_of};
ghost use Rattle.root_search.specs.Searching.{AreKnown, IsPlanned, SearcherStands, new_client, Submits, SearchesAs, IsAtWork, Ends, FaultEnds, IsRefusalOf};
ghost use Rattle.root_search.specs.Leaving.{Restarts, StepLeaves, TakesText, Works};
ghost use Rattle.root_search.specs.StepPlans.{AddsUnlessShort, AnswersText, PlansUnlessShort, RepliesError, StepPlans};
ghost use Rattle.root_search.specs.StepReads.{FetchesRow, IsFetchRefusal, Refuses, SaysOver, StepAnswers, StepReads, refusal_of};
ghost use Rattle.root_search.specs.declared.searcher.Request.TheVariants as requests;
ghost use Rattle.root_search.specs.Steps as steps;
ghost use Rattle.root_search.specs.Steps.{opened, without_request, reply_with, state_refusal, trouble_replied, refused_over, unmade_replied};

use crate::asking::read_request;
use crate::fetched_splits::{FetchedSplit, FetchedSplits};
use crate::fetching::{FetchError, fetch_part};
use crate::footers::Footers;
use crate::outcome::SearchStep;
use crate::part_answers::answer_over;
use crate::planned::Planned;
use crate::reads::{ReadRequest, ReadSearch};
use byte_fields::{Client, Text};
use index_world::{DeleteAsk, Gate, WorldError};
use meta_journal::split_key;
use meta_store::{Choice, Refusal as StateRefusal};
use search_api::{Refusal, Reply, Said, Unanswered};
use std::alloc::{AllocError, Global};
use std::mem;
use std::thread::Threads;
use thiserror::Error;

/// A request is unanswered.
#[derive(Clone, Copy, Debug, Error)]
#[error("a request is unanswered")]
pub struct Busy;

#[derive(Drop)]
enum Request {
    Vacant,
    Opened(Text),
    Planned(Planned),
}

/// Answers the requests of one client, one after another.
#[derive(Drop)]
pub struct Searcher {
    client: Client,
    // The revision of the last reply.
    front: u64,
    footers: Footers,
    request: Request,
}

// What a delete is answered where the state refuses its task: so many stand already. What a sound index never answers
// is replied as an index that has no room.
fn refused_by_state(refusal: StateRefusal) -> Refusal
    ensures { result ≡ state_refusal refusal }
{
    match refusal {
        StateRefusal::TooManyTasks { count } => Refusal::TooManyTasks {
            count: count as u64,
        },
        other => {
            mem::drop(other);
            Refusal::Full
        }
    }
}

// What a request is answered where a call of the world gave nothing; want of memory is the step's own answer. What a
// sound index never answers is replied as it is, or as an index that has no room.
fn refused_by(error: WorldError) -> Result<Refusal, AllocError>
    ensures trouble { (trouble : Trouble) → IsTrouble error trouble → IsRefusalOf result trouble }
    ensures exact { MatchResult result (λ refusal. refusal_of error ≡ Some refusal) (λ refused. refusal_of error ≡ None) }
{
    match error {
        WorldError::Memory(refused) => Err(refused),
        WorldError::StoreFault { before, after } => Ok(Refusal::StoreFault { before, after }),
        WorldError::Expired { planned_at, now } => Ok(Refusal::Expired { planned_at, now }),
        WorldError::Missing { key } => Ok(Refusal::Missing { key }),
        WorldError::Corrupt { key } => Ok(Refusal::Corrupt { key }),
        WorldError::Foreign { key } => Ok(Refusal::Foreign { key }),
        WorldError::Full => Ok(Refusal::Full),
        WorldError::Refused(refusal) => Ok(refused_by_state(refusal)),
        WorldError::NoIndex => Ok(Refusal::Full),
        WorldError::IndexExists => Ok(Refusal::Full),
        WorldError::BadConfig(fault) => {
            mem::drop(fault);
            Ok(Refusal::Full)
        }
    }
}

// The planned search, of whose next row this part was fetched.
fn with_part(mut planned: Planned, part: FetchedSplit) -> Result<Planned, AllocError>
    ensures ask { IfOk result (λ later. later.ask ≡ planned.ask) }
    ensures plan { IfOk result (λ later. later.plan ≡ planned.plan) }
    ensures next { IfOk result (λ later. later.next ≡ min (planned.next + 1) (2 ^ 32 - 1)) }
    ensures parts { IfOk result (λ later. later.parts ≡ planned.parts ++ part ∷ []) }
{
    match planned.parts.push(part) {
        Ok(()) => {
            planned.next = planned.next.saturating_add(1);
            Ok(planned)
        }
        Err(refused) => {
            mem::drop(planned);
            Err(refused)
        }
    }
}

impl Searcher {
    /// A client without a request, whose front is 0.
    pub fn start(client: Client) -> Searcher
        ensures { (core : Core) (log : Log) → SearcherStands result (new_client client) core log }
    {
        Searcher {
            client,
            front: 0,
            footers: Footers::vacant(),
            request: Request::Vacant,
        }
    }

    /// The revision of the last reply, 0 before the first.
    pub fn front(&self) -> u64
        ensures { result ≡ self.now.front }
    {
        self.front
    }

    pub fn client(&self) -> &Client
        ensures { result.now ≡ self.now.client }
    {
        &self.client
    }

    /// Drops the request and the footers that are kept. The client and its front stay.
    pub fn restart(&mut self)
        // Whatever the world is then.
        ensures step { (client : steps.Client) (core after : Core) (log : Log) → SearcherStands self.old client core log →
            SearcherStands self.new (without_request client) after log }
        ensures leaves { Restarts self.old self.new }
    {
        self.hold(Request::Vacant);
        self.footers = Footers::vacant();
    }

    // Holds another request.
    fn hold(&mut self, request: Request)
        ensures { self.new ≡ record self.old { request = request } }
    {
        mem::drop(mem::replace(&mut self.request, request));
    }

    /// Opens a request. Where one is unanswered the text is dropped.
    pub fn submit(&mut self, text: Text) -> Result<(), Busy>
        ensures step { (client : steps.Client) (core : Core) (log : Log) → SearcherStands self.old client core log →
            Submits result self.new text client core log }
        ensures leaves { TakesText result text self.old self.new }
    {
        match &self.request {
            Request::Vacant => {
                self.hold(Request::Opened(text));
                Ok(())
            }
            _ => Err(Busy),
        }
    }

    fn reply(&mut self, revision: u64, said: Said) -> SearchStep
        ensures step { (client : steps.Client) (core : Core) (log : Log) → IsAtWork self.old client core →
            Ends (Ok result) self.new (reply_with revision said client core) log }
        ensures replied { NeverFetched (Ok result) }
        ensures leaves { self.new ≡ record self.old { front = revision } }
        ensures said { result ≡ SearchStep.Replied (record { client = self.old.client; revision = revision; said = said }) }
    {
        self.front = revision;
        SearchStep::Replied(Reply {
            client: self.client,
            revision,
            said,
        })
    }

    fn refuse(&mut self, revision: u64, error: WorldError) -> Result<SearchStep, AllocError>
        ensures step { (trouble : Trouble) (client : steps.Client) (core : Core) (log : Log) → IsTrouble error trouble → IsAtWork self.old client core →
            Ends result self.new (trouble_replied revision trouble client core) log }
        ensures unmade { (unmade : Unmade) (client : steps.Client) (core : Core) (log : Log) → IsUnmade error unmade → IsAtWork self.old client core →
            Ends result self.new (unmade_replied revision unmade client core) log }
        ensures replied { NeverFetched result }
        ensures refuses { Refuses revision (λ refusal. refusal_of error ≡ Some refusal) result }
        ensures exact { RepliesError error revision result }
        ensures leaves { self.old.request ≡ requests.Vacant → Works self.old result self.new }
    {
        let refusal = refused_by(error)?;
        Ok(self.reply(revision, Said::Refused(refusal)))
    }

    // What is answered where nothing is fetched of the split with a number.
    fn refuse_fetch(
        &mut self,
        number: u64,
        revision: u64,
        fault: FetchError,
    ) -> Result<SearchStep, AllocError>
        ensures step { (client : steps.Client) (core : Core) (log : Log) → IsAtWork self.old client core →
            FaultEnds fault result self.new revision client core log }
        ensures replied { NeverFetched result }
        ensures refuses { Refuses revision (IsFetchRefusal number fault) result }
        ensures leaves { self.old.request ≡ requests.Vacant → Works self.old result self.new }
    {
        match fault {
            FetchError::World(error) => self.refuse(revision, error),
            FetchError::Memory(refused) => Err(refused),
            FetchError::Corrupt => {
                let key = split_key(number);
                Ok(self.reply(revision, Said::Refused(Refusal::Corrupt { key })))
            }
        }
    }

    // Where no plan is made the request is refused all the same, over the last reply's revision.
    fn refuse_unplanned(
        &mut self,
        refusal: Refusal,
        error: WorldError,
    ) -> Result<SearchStep, AllocError>
        ensures step { (trouble : Trouble) (client : steps.Client) (core : Core) (log : Log) → IsTrouble error trouble → IsAtWork self.old client core →
            Ends result self.new (refused_over client.front refusal trouble client core) log }
        ensures refuses { Refuses self.old.front (λ given. (given ≡ refusal) × IsSome (refusal_of error)) result }
        ensures leaves { self.old.request ≡ requests.Vacant → Works self.old result self.new }
    {
        match refused_by(error) {
            Ok(fault) => {
                mem::drop(fault);
                Ok(self.reply(self.front, Said::Refused(refusal)))
            }
            Err(refused) => {
                mem::drop(refusal);
                Err(refused)
            }
        }
    }

    // A text that asks nothing is refused, over the revision of a plan of no rows.
    fn refuse_asked<G: Gate>(
        &mut self,
        alloc: Global,
        gate: &mut G,
        refusal: Refusal,
    ) -> Result<SearchStep, AllocError>
        ensures later { G.since gate.old gate.new }
        ensures step { (text : List ℕ) (config : configs.IndexConfig) (client : steps.Client) (core : Core) (log : Log) →
            IsConfigured config core → asked_of config text ≡ Err (reasons.Refused refusal) → client.request ≡ opened text →
            G.Stands gate.old core log → IsAtWork self.old client core →
            SearchesAs G.Stands G.Between G.Adds gate.old result self.new gate.new client core log }
        ensures plans { (s : Schema) → PlansUnlessShort G.Stands G.Between G.Owns G.Adds G.bytes_fetched G.Answers s (Err (reasons.Refused refusal)) self.old.front self.new.request result gate.old gate.new }
        ensures leaves { self.old.request ≡ requests.Vacant → Works self.old result self.new }
    {
        match gate.plan(alloc, &Choice::Look) {
            Ok(plan) => Ok(self.reply(plan.revision, Said::Refused(refusal))),
            Err(error) => self.refuse_unplanned(refusal, error),
        }
    }

    fn plan_read<G: Gate>(
        &mut self,
        alloc: Global,
        gate: &mut G,
        read: ReadSearch,
    ) -> Result<SearchStep, AllocError>
        ensures later { G.since gate.old gate.new }
        ensures step { (text : List ℕ) (search : Search) (config : configs.IndexConfig) (client : steps.Client) (core : Core) (log : Log) →
            IsConfigured config core → asked_of config text ≡ Ok (IsSearch search) → IsRead config.schema search read → client.request ≡ opened text →
            G.Stands gate.old core log → IsAtWork self.old client core →
            SearchesAs G.Stands G.Between G.Adds gate.old result self.new gate.new client core log }
        ensures plans { (s : Schema) (search : Search) → IsRead s search read →
            PlansUnlessShort G.Stands G.Between G.Owns G.Adds G.bytes_fetched G.Answers s (Ok search) self.old.front self.new.request result gate.old gate.new }
        ensures leaves { self.old.request ≡ requests.Vacant → Works self.old result self.new }
    {
        match gate.plan(alloc, &read.choice) {
            Ok(plan) => {
                let revision = plan.revision;
                let count = plan.rows.len() as u64;
                self.hold(Request::Planned(Planned {
                    ask: read.ask,
                    plan,
                    next: 0,
                    parts: FetchedSplits::vacant(alloc),
                }));
                mem::drop(read.choice);
                Ok(SearchStep::Planned { revision, count })
            }
            Err(error) => {
                mem::drop(read);
                self.refuse(self.front, error)
            }
        }
    }

    // The task of a delete is added, in one call, and the client sees it from then on.
    fn delete<G: Gate>(
        &mut self,
        alloc: Global,
        gate: &mut G,
        ask: &DeleteAsk,
    ) -> Result<SearchStep, AllocError>
        requires { CanAddTask ask.now }
        ensures later { G.since gate.old gate.new }
        ensures step { (text : List ℕ) (deletion : Deletion) (config : configs.IndexConfig) (client : steps.Client) (core : Core) (log : Log) →
            IsConfigured config core → asked_of config text ≡ Ok (IsDelete deletion) → ask.now ≡ ask_of deletion → client.request ≡ opened text →
            G.Stands gate.old core log → IsAtWork self.old client core →
            SearchesAs G.Stands G.Between G.Adds gate.old result self.new gate.new client core log }
        ensures adds { AddsUnlessShort G.Stands G.Between G.Owns G.Adds G.bytes_fetched G.Answers ask.now self.old.front result gate.old gate.new }
        ensures leaves { self.old.request ≡ requests.Vacant → Works self.old result self.new }
    {
        match gate.add_task(alloc, ask) {
            Ok(receipt) => {
                let opstamp = receipt.opstamp;
                Ok(self.reply(receipt.revision, Said::Deleted { opstamp }))
            }
            Err(error) => self.refuse(self.front, error),
        }
    }

    // The first step of a text.
    fn take_up<G: Gate>(
        &mut self,
        alloc: Global,
        gate: &mut G,
        text: &Text,
    ) -> Result<SearchStep, AllocError>
        ensures later { G.since gate.old gate.new }
        ensures step { (client : steps.Client) (core : Core) (log : Log) → client.request ≡ opened text.now → G.Stands gate.old core log →
            IsAtWork self.old client core → SearchesAs G.Stands G.Between G.Adds gate.old result self.new gate.new client core log }
        ensures plans { let config = G.configured gate.old in
            AnswersText G.Stands G.Between G.Owns G.Adds G.bytes_fetched G.Answers config.schema (asked_of config text.now) self.old.front self.new.request result gate.old gate.new }
        ensures leaves { self.old.request ≡ requests.Vacant → Works self.old result self.new }
    {
        match read_request(alloc, gate.config(), text.as_slice()) {
            Ok(ReadRequest::Search(read)) => self.plan_read(alloc, gate, read),
            Ok(ReadRequest::Delete(ask)) => self.delete(alloc, gate, &ask),
            Err(Unanswered::Refused(refusal)) => self.refuse_asked(alloc, gate, refusal),
            Err(Unanswered::Memory(refused)) => Err(refused),
        }
    }

    fn fetch<G: Gate>(
        &mut self,
        alloc: Global,
        gate: &mut G,
        planned: Planned,
    ) -> Result<SearchStep, AllocError>
        requires { planned.next < length planned.plan.rows }
        ensures later { G.since gate.old gate.new }
        ensures step { (search : steps.Plan) (client : steps.Client) (core : Core) (log : Log) → IsLog log → client.request ≡ steps.planned search →
            IsPlanned planned search core log → AreKnown self.old.footers search.revision core log → G.Stands gate.old core log → IsAtWork self.old client core →
            SearchesAs G.Stands G.Between G.Adds gate.old result self.new gate.new client core log }
        ensures draws { (search : steps.Plan) (client : steps.Client) (core : Core) (log : Log) → IsPlanned planned search core log →
            G.Stands gate.old core log → IsAtWork self.old client core →
            StepDraws self.old search result (G.bytes_fetched gate.old) (G.bytes_fetched gate.new) core }
        ensures reads { (row : PlanRow) → slice_get planned.plan.rows planned.next ≡ Some row →
            FetchesRow G.Stands G.Between G.Owns G.Adds G.bytes_fetched G.told G.Answers self.old.footers planned row self.new.request result gate.old gate.new }
        ensures leaves { self.old.request ≡ requests.Vacant → Works self.old result self.new }
    {
        let place = planned.next;
        let number = planned.plan.rows.at(place as usize).number;
        let known = self.footers.take(number);
        let request = &planned.ask.request;
        match fetch_part(alloc, gate, &planned.plan, place, request, known) {
            Ok(part) => {
                self.footers.keep(alloc, number, &part.footer);
                let later = with_part(planned, part)?;
                self.hold(Request::Planned(later));
                Ok(SearchStep::Fetched { number })
            }
            Err(fault) => {
                let revision = planned.plan.revision;
                mem::drop(planned);
                self.refuse_fetch(number, revision, fault)
            }
        }
    }

    fn go_on<Rt: Threads + Sync, G: Gate>(
        &mut self,
        rt: &Rt,
        alloc: Global,
        gate: &mut G,
        planned: Planned,
    ) -> Result<SearchStep, AllocError>
        ensures later { G.since gate.old gate.new }
        ensures step { (search : steps.Plan) (client : steps.Client) (core : Core) (log : Log) → IsLog log → client.request ≡ steps.planned search →
            IsPlanned planned search core log → AreKnown self.old.footers search.revision core log → G.Stands gate.old core log → IsAtWork self.old client core →
            SearchesAs G.Stands G.Between G.Adds gate.old result self.new gate.new client core log }
        ensures draws { (search : steps.Plan) (client : steps.Client) (core : Core) (log : Log) → IsPlanned planned search core log →
            G.Stands gate.old core log → IsAtWork self.old client core →
            StepDraws self.old search result (G.bytes_fetched gate.old) (G.bytes_fetched gate.new) core }
        ensures reads { (row : PlanRow) → slice_get planned.plan.rows planned.next ≡ Some row →
            FetchesRow G.Stands G.Between G.Owns G.Adds G.bytes_fetched G.told G.Answers self.old.footers planned row self.new.request result gate.old gate.new }
        ensures answers { length planned.plan.rows ≤ planned.next → SaysOver (G.configured gate.old) planned result }
        ensures leaves { self.old.request ≡ requests.Vacant → Works self.old result self.new }
    {
        if (planned.next as usize) < planned.plan.rows.len() {
            return self.fetch(alloc, gate, planned);
        }
        let revision = planned.plan.revision;
        mem::drop(planned.plan);
        let ask = planned.ask;
        match answer_over(rt, alloc, &gate.config().schema, &ask, planned.parts) {
            Ok(said) => {
                mem::drop(ask);
                Ok(self.reply(revision, said))
            }
            Err(refused) => {
                mem::drop(ask);
                Err(refused)
            }
        }
    }

    /// One step. After want of memory there is no request any more.
    pub fn step<Rt: Threads + Sync, G: Gate>(
        &mut self,
        rt: &Rt,
        alloc: Global,
        gate: &mut G,
    ) -> Result<SearchStep, AllocError>
        ensures later { G.since gate.old gate.new }
        ensures step { (client : steps.Client) (core : Core) (log : Log) → IsLog log → G.Stands gate.old core log →
            SearcherStands self.old client core log →
            SearchesAs G.Stands G.Between G.Adds gate.old result self.new gate.new client core log }
        // How many bytes are drawn where it fetches of a planned split.
        ensures draws { (search : steps.Plan) (client : steps.Client) (core : Core) (log : Log) → client.request ≡ steps.planned search →
            G.Stands gate.old core log → SearcherStands self.old client core log →
            StepDraws self.old search result (G.bytes_fetched gate.old) (G.bytes_fetched gate.new) core }
        // Whatever the gate tells: what it answers to a text, which it plans or whose task it adds, by what its call answered.
        ensures plans { StepPlans G.Stands G.Between G.Owns G.Adds G.bytes_fetched G.Answers (G.configured gate.old) self.old self.new result gate.old gate.new }
        // Where it fetches of a planned split, by the bytes that its calls gave.
        ensures reads { StepReads G.Stands G.Between G.Owns G.Adds G.bytes_fetched G.told G.Answers self.old self.new result gate.old gate.new }
        // And where each is fetched.
        ensures answers { StepAnswers (G.configured gate.old) self.old result }
        // What it leaves of the searcher.
        ensures leaves { StepLeaves self.old result self.new }
    {
        match mem::replace(&mut self.request, Request::Vacant) {
            Request::Vacant => Ok(SearchStep::Idle),
            Request::Opened(text) => self.take_up(alloc, gate, &text),
            Request::Planned(planned) => self.go_on(rt, alloc, gate, planned),
        }
    }
}
