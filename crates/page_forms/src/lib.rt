//! Pages on a query's plan as text, as JSON and as HTML.
#![tactic(auto)]

mod column_widths;
mod drawing;
mod escapes;
mod json_text;
mod objects;
mod pictures;
mod places;
mod shown;
mod spots;
mod text_pages;
mod text_rows;
mod text_tables;
mod web_pages;
mod web_tables;
mod written;

pub use drawing::Drawing;
pub use objects::page_json;
pub use text_pages::page_text;
pub use web_pages::page_html;
