ghost use Rattle.std.specs.Prelude.{◌≡◌, ◌↔◌, codes, IfOk, IsTrue, OnErr};
ghost use Rattle.bsp_cli.specs.Words.{AskNothing, ServesFolder, folder_of, is_folder};

use ob_text::Text;

/// What the words of the command line ask for.
#[derive(Clone, Copy)]
pub enum Command<'a> {
    /// To serve the folder `folder`.
    Serve { folder: &'a Text },
}

/// The words ask for nothing that the program does.
#[derive(Clone, Copy, Debug, PartialEq, Eq)]
pub struct Usage;

/// Reads the words behind the program's name. Takes no memory.
pub fn read_words(words: &[Text]) -> Result<Command<'_>, Usage>
    ensures command { IfOk result (λ command. ServesFolder words.now (folder_of command)) }
    ensures usage { OnErr result (AskNothing words.now) }
{
    match words {
        [command, folder] => {
            if is_serve(command.as_slice()) && is_folder(folder.as_slice()) {
                Ok(Command::Serve { folder })
            } else {
                Err(Usage)
            }
        }
        _ => Err(Usage),
    }
}

fn is_serve(word: &[u8]) -> bool
    ensures { IsTrue result ↔ (word.now ≡ codes "serve") }
{
    word == b"serve".as_slice()
}

// A word that isn't empty, and isn't written as an option.
fn is_folder(word: &[u8]) -> bool
    ensures { result ≡ is_folder word.now }
{
    !word.is_empty() && !word.starts_with(b"--")
}
