// No code: worked rows of document 01's "Sound tree", hand-made trees, sound and not.
