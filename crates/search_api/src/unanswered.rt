//! Why a request has no answer yet to be looked for.

ghost use Rattle.std.specs.Prelude.{◌≡◌};
ghost use Rattle.search_api.specs.Unanswered.{of_query, of_aggs, of_request};
ghost use Rattle.search_api.specs.declared.unanswered.Unanswered.TheVariants as reasons;

use crate::reply::Refusal;
use crate::request_error::RequestError;
use agg_model::AggError;
use query_reader::QueryError;
use std::alloc::AllocError;

/// A refusal, or want of memory, which no reply carries.
#[derive(Drop)]
pub enum Unanswered {
    Refused(Refusal),
    Memory(AllocError),
}

impl From<AllocError> for Unanswered {
    ghost from_gives = { λ error reason. reason ≡ reasons.Memory error };

    fn from(error: AllocError) -> Unanswered {
        Unanswered::Memory(error)
    }
}

impl From<QueryError> for Unanswered {
    ghost from_gives = { λ error reason. reason ≡ of_query error };

    fn from(error: QueryError) -> Unanswered {
        let refusal = match error {
            QueryError::Syntax { at } => Refusal::Syntax { at },
            QueryError::UnknownField { name } => Refusal::UnknownField { name },
            QueryError::BadValue { at } => Refusal::BadValue { at },
            QueryError::NoDefaultField { at } => Refusal::NoDefaultField { at },
            QueryError::NoPositions { at } => Refusal::NoPositions { at },
            QueryError::TooDeep { at } => Refusal::TooDeep { at },
            QueryError::NotIndexed { at } => Refusal::NotIndexed { at },
            QueryError::Memory(error) => return Unanswered::Memory(error),
        };
        Unanswered::Refused(refusal)
    }
}

impl From<AggError> for Unanswered {
    ghost from_gives = { λ error reason. reason ≡ of_aggs error };

    fn from(error: AggError) -> Unanswered {
        let refusal = match error {
            AggError::NotFast { field } => Refusal::NotFast { field },
            AggError::BadInterval { name } => Refusal::BadInterval { name },
            AggError::TooManyBuckets { count } => Refusal::TooManyBuckets { count },
            AggError::Memory(error) => return Unanswered::Memory(error),
        };
        Unanswered::Refused(refusal)
    }
}

impl From<RequestError> for Unanswered {
    ghost from_gives = { λ error reason. reason ≡ of_request error };

    fn from(error: RequestError) -> Unanswered {
        let refusal = match error {
            RequestError::NotJson => Refusal::NotJson,
            RequestError::UnknownKey { name } => Refusal::UnknownKey { name },
            RequestError::WrongKind { name } => Refusal::WrongKind { name },
            RequestError::TooManyHits { wanted } => Refusal::TooManyHits { wanted },
            RequestError::MissingKey { name } => Refusal::MissingKey { name },
            RequestError::Memory(error) => return Unanswered::Memory(error),
        };
        Unanswered::Refused(refusal)
    }
}
