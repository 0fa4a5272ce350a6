// Two calls of the C interface (include/screen.h) and nothing else: saving a screen and loading it. Each turns the answer of
// crate `files` into its number and into the values of its out-parameters. No call asks anything of its arguments.
#![tactic(auto)]

ghost use Rattle.std.specs.Prelude.{◌≡◌, true, length};
ghost use Rattle.file_structure.specs.Read.{held};
ghost use Rattle.files.specs.Answers.{save_answer, save_bytes, load_answer, loaded_bytes};
ghost use Rattle.files.specs.Calls.{save_number, saved_length, load_number, loaded_root, loaded_columns, loaded_used, loaded_values};
ghost use Rattle.files.specs.Calls.{loaded_text};
ghost use Rattle.files.specs.Calls.{SavePromise, LoadPromise};
ghost use Rattle.screen_files.specs.Listed.{save_listed, load_listed};

use files::load::load_screen;
use save_screen::save_screen;

// Below 256: the refusal's number, and nothing is written. 256: the first `size` bytes of `file` are the file of the screen.
#[unsafe(no_mangle)]
pub extern "C" fn screen_save(
    table: &[u8],
    records: &[u8],
    pool: &[u8],
    text: &[u8],
    used: u64,
    root: u64,
    file: &mut [u8],
    size: &mut u64,
) -> u32
    ensures answer { result ≡ save_number (save_answer table.now records.now pool.now
        text.now used root (length file.old)) }
    ensures listed { save_listed result ≡ true }
    ensures size { size.new ≡ saved_length (save_answer table.now records.now
        pool.now text.now used root (length file.old)) size.old }
    ensures bytes { file.new ≡ save_bytes table.now records.now pool.now
        text.now used root file.old }
    ensures promise { SavePromise table.now records.now pool.now text.now
        used root result file.old file.new size.new }
{
    match save_screen(table, records, pool, text, used, root, file) {
        Err(r) => r.number(),
        Ok(n) => {
            *size = n;
            256
        }
    }
}

// Below 256: the refusal's number, and nothing is written. 256: the screen that the file holds stands in the front of
// `table`, `records`, `pool` and `text`, with its root and the totals of columns, records, values and bytes of text.
#[unsafe(no_mangle)]
pub extern "C" fn screen_load(
    file: &[u8],
    table: &mut [u8],
    records: &mut [u8],
    pool: &mut [u8],
    text: &mut [u8],
    root: &mut u64,
    columns: &mut u64,
    used: &mut u64,
    values: &mut u64,
    bytes: &mut u64,
) -> u32
    ensures answer { result ≡ load_number (load_answer file.now (length table.old)
        (length records.old) (length pool.old) (length text.old)) }
    ensures listed { load_listed result ≡ true }
    ensures root { root.new ≡ loaded_root (load_answer file.now (length table.old)
        (length records.old) (length pool.old) (length text.old))
        root.old }
    ensures columns { columns.new ≡ loaded_columns (load_answer file.now (length table.old)
        (length records.old) (length pool.old) (length text.old))
        columns.old }
    ensures used { used.new ≡ loaded_used (load_answer file.now (length table.old)
        (length records.old) (length pool.old) (length text.old))
        used.old }
    ensures values { values.new ≡ loaded_values (load_answer file.now (length table.old)
        (length records.old) (length pool.old) (length text.old))
        values.old }
    ensures bytes { bytes.new ≡ loaded_text (load_answer file.now (length table.old)
        (length records.old) (length pool.old) (length text.old))
        bytes.old }
    ensures table { table.new ≡ loaded_bytes (load_answer file.now (length table.old)
        (length records.old) (length pool.old) (length text.old))
        table.old (held 1 file.now) }
    ensures records { records.new ≡ loaded_bytes (load_answer file.now (length table.old)
        (length records.old) (length pool.old) (length text.old))
        records.old (held 2 file.now) }
    ensures pool { pool.new ≡ loaded_bytes (load_answer file.now (length table.old)
        (length records.old) (length pool.old) (length text.old))
        pool.old (held 3 file.now) }
    ensures text { text.new ≡ loaded_bytes (load_answer file.now (length table.old)
        (length records.old) (length pool.old) (length text.old))
        text.old (held 5 file.now) }
    ensures promise { LoadPromise file.now result table.new records.new pool.new
        text.new root.new columns.new used.new values.new
        bytes.new }
{
    match load_screen(file, table, records, pool, text) {
        Err(r) => r.number(),
        Ok(screen) => {
            *root = screen.root;
            *columns = screen.columns;
            *used = screen.used;
            *values = screen.values;
            *bytes = screen.bytes;
            256
        }
    }
}
