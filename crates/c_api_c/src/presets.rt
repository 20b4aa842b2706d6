// Calls on a preset book of the first edition, and on one of the second (IC7 of the specification). What both do is
// one function over the edition.
ghost use Rattle.std.specs.Prelude.{◌≡◌};
ghost use Rattle.book_format.specs.declared.Edition.TheVariants.{First, Second};
ghost use Rattle.book_format.specs.Calls.{checked_book, checked_preset, reading_presets, appending};
ghost use Rattle.book_format.specs.Conversion.{converting};
ghost use Rattle.c_api.specs.Calls.{numbered, opened_number, preset_numbers, listed};

// I25, of the first edition.
#[unsafe(no_mangle)]
pub extern "C" fn winnathey_book_check(book: &[u8]) -> i64
    ensures { result ≡ opened_number (checked_book First book.now) }
{
    c_api::presets::winnathey_book_check(book)
}

// I26, of the first edition.
#[unsafe(no_mangle)]
pub extern "C" fn winnathey_preset(book: &[u8], number: usize, fields: &mut [u64]) -> i64
    ensures { (result, fields.new) ≡ listed (preset_numbers (checked_preset First book.now number)) fields.old }
{
    c_api::presets::winnathey_preset(book, number, fields)
}

// I30, of the first edition.
#[unsafe(no_mangle)]
pub extern "C" fn winnathey_presets(book: &[u8], first: usize, fields: &mut [u64]) -> i64
    ensures { (result, fields.new) ≡ numbered (reading_presets First book.now first fields.old) }
{
    c_api::presets::winnathey_presets(book, first, fields)
}

// I28, of the first edition.
#[unsafe(no_mangle)]
pub extern "C" fn winnathey_append(
    book: &[u8],
    kind: u32,
    rank: u32,
    word: &[u8],
    out: &mut [u8],
) -> i64
    ensures { (result, out.new) ≡ numbered (appending First book.now kind rank word.now out.old) }
{
    c_api::presets::winnathey_append(book, kind, rank, word, out)
}

// I25, of the second edition.
#[unsafe(no_mangle)]
pub extern "C" fn winnathey_second_book_check(book: &[u8]) -> i64
    ensures { result ≡ opened_number (checked_book Second book.now) }
{
    c_api::presets::winnathey_second_book_check(book)
}

// I26, of the second edition.
#[unsafe(no_mangle)]
pub extern "C" fn winnathey_second_preset(book: &[u8], number: usize, fields: &mut [u64]) -> i64
    ensures { (result, fields.new) ≡ listed (preset_numbers (checked_preset Second book.now number)) fields.old }
{
    c_api::presets::winnathey_second_preset(book, number, fields)
}

// I30, of the second edition.
#[unsafe(no_mangle)]
pub extern "C" fn winnathey_second_presets(book: &[u8], first: usize, fields: &mut [u64]) -> i64
    ensures { (result, fields.new) ≡ numbered (reading_presets Second book.now first fields.old) }
{
    c_api::presets::winnathey_second_presets(book, first, fields)
}

// I28, of the second edition.
#[unsafe(no_mangle)]
pub extern "C" fn winnathey_second_append(
    book: &[u8],
    kind: u32,
    rank: u32,
    word: &[u8],
    out: &mut [u8],
) -> i64
    ensures { (result, out.new) ≡ numbered (appending Second book.now kind rank word.now out.old) }
{
    c_api::presets::winnathey_second_append(book, kind, rank, word, out)
}

// I29, of a book of the first edition.
#[unsafe(no_mangle)]
pub extern "C" fn winnathey_to_second(book: &[u8], out: &mut [u8]) -> i64
    ensures { (result, out.new) ≡ numbered (converting First book.now out.old) }
{
    c_api::presets::winnathey_to_second(book, out)
}

// I29, of a book of the second edition.
#[unsafe(no_mangle)]
pub extern "C" fn winnathey_to_first(book: &[u8], out: &mut [u8]) -> i64
    ensures { (result, out.new) ≡ numbered (converting Second book.now out.old) }
{
    c_api::presets::winnathey_to_first(book, out)
}
