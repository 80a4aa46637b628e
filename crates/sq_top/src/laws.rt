// What the ends of runs come to: the headline, over a folder that tells its files, and over every folder.
ghost use Rattle.std.specs.Prelude.{◌≡◌, ℕ, List, Some};
ghost use Rattle.sq_outside.specs.Folders.{Files};
ghost use Rattle.sq_status.specs.declared.Status.{Status};
ghost use Rattle.sq_top.specs.Ends.{Ends};
ghost use Rattle.sq_top.specs.Outside.{Outside};
ghost use Rattle.sq_command.specs.Commands.{command_in};
ghost use Rattle.sq_top.specs.Parts.{TapsShowParts};
ghost use Rattle.sq_top.specs.HeadlineLaw.{RunsKeepTheHeadline};
ghost use Rattle.sq_top.specs.ToldFolders.{EndsOver, FolderHasCause, looked_at};

/// Over a folder that tells its files a run ends as they say: what it reads is what is told.
pub fn told_files_decide()
    ensures { (files : Files) (words : List (List ℕ)) (before after : Outside) (result : Status) (source : List ℕ)
        → looked_at (command_in words) before.folder.told ≡ Some files → Ends words before after result source
        → EndsOver files words before after result source }
{}

/// Over every folder a refusal of it has its cause, and a name of the words or of the network that was read.
pub fn folders_have_causes()
    ensures { (words : List (List ℕ)) (before after : Outside) (result : Status) (source : List ℕ)
        → Ends words before after result source → FolderHasCause words before after result }
{}

/// What is due of a tap whose files were read shows, for each output of the query, what the query alone shows over the part of the
/// stream from the tick on, and neither a drop nor a plan.
pub fn taps_show_parts()
    ensures { TapsShowParts }
{}

/// Each run, and each tap, of which all was accepted keeps the headline over a disk that is known at its end: what `KeepsHeadline` says of the
/// text that it wrote can be read without the rest of what `run_words` promises.
pub fn runs_keep_the_headline()
    ensures { RunsKeepTheHeadline }
{}
