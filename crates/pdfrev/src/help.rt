// How the tool is used.

pub const USAGE: &[u8] = b"pdfrev: every revision of a record in one PDF file

    pdfrev list FILE              the revisions, and what each changed
    pdfrev show FILE K N          the body of object N in revision K
    pdfrev extract FILE K OUT     the file as it stood at revision K, as a new file OUT
    pdfrev check FILE             whether the file is a record, and if not, why and where
    pdfrev diff FILE J K          the objects added, changed and withdrawn from revision J to K
    pdfrev help                   this text

Revisions count from 1, the oldest. The tool changes no file, and writes OUT only where there is none.
";
