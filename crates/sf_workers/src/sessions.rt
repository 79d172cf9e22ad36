//! The sessions that workers served, with their transcripts.

ghost use Rattle.std.specs.Prelude.{◌≡◌, ◌<◌, ◌≤◌, ◌⊎◌, ◌+◌, ◌++◌, ◌∷◌, [], true, map, vec_len, IfOk, OnOk, OnErr};
ghost use Rattle.std.specs.Vec.{vec_capacity};
ghost use Rattle.sf_noted.specs.Pages.{page_calls};
ghost use Rattle.sf_noted.specs.Visits.{visit_calls};
ghost use Rattle.sf_workers.specs.Sessions.{calls_on_page, calls_in_transcript, kept_transcripts};

use sf_audit::Transcript;
use sf_noted::Visit;
use sf_roll::RollName;
use std::alloc::{AllocError, Global};

/// The pages of sessions, which have no bytes, and their transcripts, if these are kept.
#[derive(Drop)]
pub(crate) struct Sessions<B: RollName> {
    pub(crate) visits: Vec<Visit<B>>,
    pub(crate) transcripts: Vec<Transcript>,
    pub(crate) keeps: bool,
    ghost kept: { map calls_in_transcript transcripts.items ≡ kept_transcripts keeps visits.items },
}

impl<B: RollName> Sessions<B> {
    /// No sessions.
    pub(crate) fn none(alloc: Global, keeps: bool) -> Sessions<B>
        ensures visits { result.visits.items ≡ [] }
        ensures keeps { result.keeps ≡ keeps }
    {
        Sessions {
            visits: Vec::new(alloc),
            transcripts: Vec::new(alloc),
            keeps,
        }
    }

    /// Reserves memory for so many more sessions.
    pub(crate) fn reserve(&mut self, more: usize) -> Result<(), AllocError>
        ensures visits { self.new.visits.items ≡ self.old.visits.items }
        ensures keeps { self.new.keeps ≡ self.old.keeps }
        ensures lens { (vec_len self.new.visits ≡ vec_len self.old.visits)
            × (vec_len self.new.transcripts ≡ vec_len self.old.transcripts) }
        ensures grows { (vec_capacity self.old.visits ≤ vec_capacity self.new.visits)
            × (vec_capacity self.old.transcripts ≤ vec_capacity self.new.transcripts) }
        ensures room { OnOk result ((vec_len self.new.visits + more ≤ vec_capacity self.new.visits)
            × (vec_len self.new.transcripts + more ≤ vec_capacity self.new.transcripts)) }
        ensures full { OnErr result ((vec_capacity self.old.visits
            < vec_len self.old.visits + more)
            ⊎ (vec_capacity self.old.transcripts < vec_len self.old.transcripts + more)) }
    {
        let Sessions {
            visits,
            transcripts,
            keeps: _,
        } = self;
        visits.reserve(more)?;
        transcripts.reserve(more)
    }

    /// Adds a session with its transcript.
    pub(crate) fn add(&mut self, visit: Visit<B>, transcript: Transcript)
        requires visits { vec_len self.old.visits < vec_capacity self.old.visits }
        requires transcripts { vec_len self.old.transcripts < vec_capacity self.old.transcripts }
        requires calls { self.old.keeps ≡ true
            → calls_in_transcript transcript ≡ calls_on_page visit }
        ensures visits { self.new.visits.items ≡ self.old.visits.items ++ visit ∷ [] }
        ensures calls { visit_calls self.new.visits.items
            ≡ visit_calls self.old.visits.items + page_calls visit.1 }
        ensures keeps { self.new.keeps ≡ self.old.keeps }
        ensures lens { (vec_len self.new.visits ≡ vec_len self.old.visits + 1)
            × (vec_len self.new.transcripts ≤ vec_len self.old.transcripts + 1) }
        ensures capacities { (vec_capacity self.new.visits ≡ vec_capacity self.old.visits)
            × (vec_capacity self.new.transcripts ≡ vec_capacity self.old.transcripts) }
    {
        let Sessions {
            visits,
            transcripts,
            keeps,
        } = self;
        visits.push_reserved(visit);
        if *keeps {
            transcripts.push_reserved(transcript);
        }
    }

    /// These sessions, followed by those of another worker.
    pub(crate) fn with(self, other: Sessions<B>) -> Result<Sessions<B>, AllocError>
        requires { other.keeps ≡ self.keeps }
        ensures visits { IfOk result (λ all. all.visits.items
            ≡ self.visits.items ++ other.visits.items) }
        ensures keeps { IfOk result (λ all. all.keeps ≡ self.keeps) }
    {
        let Sessions {
            mut visits,
            mut transcripts,
            keeps,
        } = self;
        let Sessions {
            visits: mut others,
            transcripts: mut theirs,
            keeps: _,
        } = other;
        visits.append(&mut others)?;
        transcripts.append(&mut theirs)?;
        Ok(Sessions {
            visits,
            transcripts,
            keeps,
        })
    }
}
