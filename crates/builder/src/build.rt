// The build: the listing of a table with the pins in force.
ghost use Rattle.std.specs.Prelude.{◌≡◌, length, ltb, Ok};
ghost use Rattle.std.specs.Result.{result_and};
ghost use Rattle.tables.specs.Clause.{clauses};
ghost use Rattle.tables.specs.Numbers.{refuse};
ghost use Rattle.tables.specs.declared.numbers.Refusal.TheVariants.{ShortBuffer};
ghost use Rattle.texts.specs.Buffer.{leaves};
ghost use Rattle.rules.specs.Calls.{build, build_listing, wiped};
ghost use Rattle.builder.specs.Builds.{listing_of};

use crate::evening::begin_evening;
use gates::site::Site;
use listing::evening::Evening;
use listing::listing::put_listing;
use rules::book::Book;
use rules::built::Built;
use tables::check::check;
use tables::numbers::Refusal;
use tables::sizes::{MOST_VARIABLES, VARIABLE_NUMBERS};

/// Lists an evening. The listing is first laid over an empty buffer, which counts its bytes: so a refusal leaves the buffer as
/// it was.
#[tactic(auto, using(texts::proofs::RowSteps::overlay_front), unfolding(tables::specs::Numbers::refuse, texts::specs::Buffer::leaves))]
fn list_evening(evening: &Evening, out: &mut [u8]) -> Result<Built, Refusal>
    ensures is { let bytes = length (listing_of evening.now) in
        result ≡ result_and (refuse (ltb (length out.old) bytes) (ShortBuffer bytes)) (Ok (record { rounds = evening.now.rounds; bytes = bytes })) }
    ensures listing { out.new ≡ leaves result (listing_of evening.now) out.old }
{
    let bytes = put_listing(&mut [], evening);
    if bytes > out.len() {
        return Err(Refusal::ShortBuffer(bytes));
    }
    put_listing(out, evening);
    Ok(Built {
        rounds: evening.rounds,
        bytes,
    })
}

/// The build, with the work buffer left as it comes.
fn built(
    n: usize,
    table: &[i32],
    book: &Book,
    work: &mut [i32],
    out: &mut [u8],
) -> Result<Built, Refusal>
    ensures is { result ≡ build n table.now book.now (length work.old) (length out.old) }
    ensures listing { out.new ≡ build_listing n table.now book.now (length work.old) out.old }
{
    check(n, table)?;
    let mut stands = [0; VARIABLE_NUMBERS];
    let mut sites = [Site::default(); MOST_VARIABLES];
    let evening = begin_evening(n, table, book, work, &mut stands, &mut sites)?;
    list_evening(&evening, out)
}

/// Builds: the listing of the table with the pins in force, at the front of the buffer. The work buffer is all zero afterwards.
#[tactic(auto, unfolding(rules::specs::Calls::wiped))]
pub fn build(
    n: usize,
    table: &[i32],
    book: &Book,
    work: &mut [i32],
    out: &mut [u8],
) -> Result<Built, Refusal>
    ensures is { result ≡ build n table.now book.now (length work.old) (length out.old) }
    ensures listing { out.new ≡ build_listing n table.now book.now (length work.old) out.old }
    ensures wiped { work.new ≡ wiped work.old }
{
    let answer = built(n, table, book, work, out);
    work.fill(0);
    answer
}
