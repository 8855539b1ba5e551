//! Laws about definitions, each the contract of a function that does nothing of its own.
ghost use Rattle.unicorn_round.specs.Counts.{CountsAgree};
ghost use Rattle.unicorn_round.specs.Laws.{AnswersTell, CompactionsRaise, OneRecordServes, PlainIsARecord, PlainMayServe, RoundsMakeJournals};

/// Equal answers are those of equal records, and so are answers of one text.
pub fn answers_tell()
    ensures { AnswersTell }
{
    script_rounds::laws::numbers_rise();
    script_rounds::laws::words_are_unbroken();
    query_reader::laws::faults_are_near();
    query_check::laws::faults_stand_in();
    reply_text::laws::lines_are_unbroken();
    reply_text::laws::heads_by_text();
}

/// Of a script whose bytes are within their limit at most one legal record has a text.
pub fn one_record_serves()
    ensures { OneRecordServes }
{
    answers_tell();
    uni_schema::laws::opens_by_text();
    uni_schema::laws::opened_is_schema();
}

/// What the rounds of a script publish is a journal.
#[tactic(auto, using(crate::proofs::Made::rounds_make_journals))]
pub fn rounds_make_journals()
    ensures { RoundsMakeJournals }
{}

/// In a legal record no compaction takes from what its stack covers, and none claims more than was made.
#[tactic(auto, using(crate::proofs::CompactionsRaise::compactions_raise))]
pub fn compactions_raise()
    ensures { CompactionsRaise }
{}

/// What answers a script line by line is what a service may answer it by.
#[tactic(auto, using(crate::proofs::PlainMayServe::plain_may_serve))]
pub fn plain_may_serve()
    ensures { PlainMayServe }
{}

/// Each script has a record, and a legal one.
#[tactic(auto, using(crate::proofs::PlainRecords::plain_is_a_record))]
pub fn plain_is_a_record()
    ensures { PlainIsARecord }
{}

/// Where no round both publishes and asks, the answers come to the same counts whatever the record.
#[tactic(auto, using(crate::proofs::Counting::counts_agree))]
pub fn counts_agree()
    ensures { CountsAgree }
{}
