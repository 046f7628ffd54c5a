// Laws of answers, over their definitions alone.

ghost use Rattle.std.specs.Prelude.{◌≡◌, List, Result, map};
ghost use Rattle.std.specs.List.Sorted.{IsPermutation};
ghost use Rattle.doc_value.specs.declared.doc.DocField.{DocField};
ghost use Rattle.agg_model.specs.Answers.{IsFinished};
ghost use Rattle.agg_model.specs.declared.agg_error.AggError.{AggError};
ghost use Rattle.agg_model.specs.declared.answer.NamedResult.{NamedResult};
ghost use Rattle.agg_model.specs.declared.request.NamedAgg.{NamedAgg};
ghost use Rattle.agg_nested.specs.Answers.{nested};
ghost use Rattle.agg_nested.specs.CountedAnswers.{HadMemory, finished};
ghost use Rattle.agg_nested.specs.Plain.{plain, plainly};

/// What is answered to agg_model's aggregations over documents.
pub fn finished_is_finished()
    // It is an answer to the request over these documents, or the number of its buckets where these are too many.
    ensures { (request : List NamedAgg) (documents : List (List DocField)) → IsFinished request documents (finished request documents) }
{}

/// Whatever is answered to agg_model's aggregations over documents.
pub fn finished_is_one()
    // It is this, where there was memory.
    ensures { (request : List NamedAgg) (documents : List (List DocField)) (result : Result (List NamedResult) AggError) → IsFinished request documents result → HadMemory result
        → result ≡ finished request documents }
{}

/// What is answered to agg_model's aggregations over documents in another order.
pub fn answers_are_permuted()
    // It is the same.
    ensures { (request : List NamedAgg) (documents others : List (List DocField)) → IsPermutation documents others → finished request documents ≡ finished request others }
{}

/// What is answered to agg_model's aggregations, with no nested ones.
pub fn plain_answers_stay()
    // It is what agg_model answers.
    ensures { (request : List NamedAgg) (documents : List (List DocField)) → nested (map plain request) documents ≡ plainly (finished request documents) }
{}
